// What holds of two memories that agree, for the layers and lists that compare two.
ghost use Rattle.memory.specs.Relation.{Agreement};

// Carries a theorem, and does nothing: of two memories that agree, every call has the same answer, brings the same bytes,
// and leaves memories that agree.
pub fn agreement_stands()
    ensures { Agreement }
{}
