// What a case says.
use call_list::CallRecord;
use card::RegisterWrite;
use std::alloc::Global;
use std::fmt;

#[derive(Clone, Copy)]
pub(crate) enum Bottom {
    Plain,
    Checked,
}

#[derive(Clone, Copy, PartialEq)]
pub(crate) enum Layer {
    Cache,
    Direct,
    Colour,
    Stride,
    Transpose,
}

impl Layer {
    // The layer that a word of the text means.
    pub(crate) fn of(word: &str) -> Option<Layer> {
        match word {
            "c" => Some(Layer::Cache),
            "d" => Some(Layer::Direct),
            "o" => Some(Layer::Colour),
            "s" => Some(Layer::Stride),
            "t" => Some(Layer::Transpose),
            _ => None,
        }
    }
}

impl fmt::Display for Layer {
    fn fmt<W: fmt::Write>(&self, f: &mut fmt::Formatter<W>) -> fmt::Result {
        let word = match self {
            Layer::Cache => "c",
            Layer::Direct => "d",
            Layer::Colour => "o",
            Layer::Stride => "s",
            Layer::Transpose => "t",
        };
        write!(f, "{word}")
    }
}

// What a window is made with.
#[derive(Drop)]
pub(crate) struct SetUp {
    pub(crate) layer: Layer,
    // how many bytes the board has
    pub(crate) board: usize,
    pub(crate) writes: Vec<RegisterWrite>,
}

// Borrowed bytes that are shown at the end.
#[derive(Clone, Copy)]
pub(crate) struct Show {
    pub(crate) index: usize,
    pub(crate) count: usize,
}

#[derive(Drop)]
pub(crate) struct Case {
    pub(crate) name: String,
    pub(crate) bottom: Bottom,
    // from the bottom up
    pub(crate) layers: Vec<Layer>,
    // with all changes made
    pub(crate) bytes: Vec<u8>,
    // of the windows, from the bottom up
    pub(crate) set_ups: Vec<SetUp>,
    pub(crate) calls: Vec<CallRecord>,
    pub(crate) shows: Vec<Show>,
}

impl Case {
    // A case of this name that says nothing yet.
    pub(crate) fn new(heap: Global, name: String) -> Case {
        Case {
            name,
            bottom: Bottom::Plain,
            layers: Vec::new(heap),
            bytes: Vec::new(heap),
            set_ups: Vec::new(heap),
            calls: Vec::new(heap),
            shows: Vec::new(heap),
        }
    }

    // The lowest window that has no set-up yet.
    pub(crate) fn next_window(&self) -> Option<Layer> {
        let mut windows = self.layers.iter().filter(|layer| **layer != Layer::Cache);
        windows.nth(self.set_ups.len()).copied()
    }
}
