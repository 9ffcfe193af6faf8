// Entries that are equal but for their marks, for the layers that set marks.
ghost use Rattle.page_table.specs.Class.{MarksUnread};

// Carries a theorem, and does nothing: to be equal but for marks is an equivalence, and a walk reads nothing of an entry beyond it.
pub fn marks_unread()
    ensures { MarksUnread }
{}
