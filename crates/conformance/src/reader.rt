// Cases from the lines of a text.
use crate::answers::BEFORE;
use crate::borrowed::{clear_cells, fill, seal, set_cells};
use crate::case::{Bottom, Case, Layer, SetUp, Show};
use crate::words::{bytes, index, number};
use anyhow::{Context, bail};
use call_list::CallRecord;
use card::RegisterWrite;
use checked::flip;
use memory::Access;
use std::alloc::Global;
use std::{mem, str};

// How high a stack may be.
const MOST_LAYERS: usize = 4;

// Where in a case the last line stood: what may follow it depends on this.
#[derive(Clone, Copy, PartialEq, PartialOrd)]
enum Part {
    Outside,
    Name,
    Stack,
    Changes,
    SetUps,
    Calls,
    Shows,
}

#[derive(Drop)]
pub(crate) struct Reader {
    heap: Global,
    part: Part,
    case: Case,
}

impl Reader {
    pub(crate) fn new(heap: Global) -> Reader {
        Reader {
            heap,
            part: Part::Outside,
            case: Case::new(heap, String::new(heap)),
        }
    }

    // Whether a case has begun and not ended.
    pub(crate) fn is_inside(&self) -> bool {
        self.part != Part::Outside
    }

    // Takes the next line, and gives the case that it ends.
    pub(crate) fn take_line(&mut self, line: &[u8]) -> anyhow::Result<Option<Case>> {
        let line = line.strip_suffix(b"\n").context("the line has no end")?;
        if !line
            .iter()
            .all(|byte| *byte == b' ' || byte.is_ascii_graphic())
        {
            bail!("a byte is no printable ASCII character");
        }
        let words: Vec<&str> = str::from_utf8(line)?.split(' ').collect(self.heap)?;
        if words.iter().any(|word| word.is_empty()) {
            bail!("a word is missing");
        }
        match words.as_slice() {
            ["end"] => Ok(Some(self.take_case()?)),
            words => {
                self.take_words(words)?;
                Ok(None)
            }
        }
    }

    fn take_case(&mut self) -> anyhow::Result<Case> {
        self.leave_set_ups(Part::Shows)?;
        self.part = Part::Outside;
        let next = Case::new(self.heap, String::new(self.heap));
        Ok(mem::replace(&mut self.case, next))
    }

    fn take_words(&mut self, words: &[&str]) -> anyhow::Result<()> {
        match words {
            ["case", name] => self.take_name(name),
            ["stack", bottom, layers @ ..] => self.take_stack(bottom, layers),
            ["bytes", count] => self.take_bytes(index(count)?),
            ["board", count] => self.take_board(index(count)?),
            ["register", register, value] => self.take_register(number(register)?, number(value)?),
            ["read", address, count] => {
                let buffer = vec![in self.heap; BEFORE; index(count)?]?;
                self.take_call(Access::Read, number(address)?, buffer)
            }
            ["write", address, word] => {
                let buffer = bytes(self.heap, word)?;
                self.take_call(Access::Write, number(address)?, buffer)
            }
            ["show", first, count] => self.take_show(index(first)?, index(count)?),
            words => self.take_change(words),
        }
    }

    // The line stands in this part, after a line from the first one or a later one.
    fn enter(&mut self, first: Part, part: Part) -> anyhow::Result<()> {
        if self.part < first || self.part > part {
            bail!("the line stands in the wrong place");
        }
        self.part = part;
        Ok(())
    }

    // The same behind the set-ups, of which none may be missing.
    fn leave_set_ups(&mut self, part: Part) -> anyhow::Result<()> {
        self.enter(Part::Changes, part)?;
        if let Some(layer) = self.case.next_window() {
            bail!("a window {layer} has no board");
        }
        Ok(())
    }

    fn take_name(&mut self, name: &str) -> anyhow::Result<()> {
        self.enter(Part::Outside, Part::Outside)?;
        self.part = Part::Name;
        self.case.name.push_str(name)?;
        Ok(())
    }

    fn take_stack(&mut self, bottom: &str, layers: &[&str]) -> anyhow::Result<()> {
        self.enter(Part::Name, Part::Name)?;
        self.part = Part::Stack;
        self.case.bottom = match bottom {
            "plain" => Bottom::Plain,
            "checked" => Bottom::Checked,
            _ => bail!("there is no bottom '{bottom}'"),
        };
        if layers.len() > MOST_LAYERS {
            bail!("a stack has at most {MOST_LAYERS} layers");
        }
        for word in layers {
            let layer = Layer::of(word).context(format_args!("there is no layer '{word}'"))?;
            self.case.layers.push(layer)?;
        }
        Ok(())
    }

    fn take_bytes(&mut self, count: usize) -> anyhow::Result<()> {
        self.enter(Part::Stack, Part::Stack)?;
        self.part = Part::Changes;
        self.case.bytes = vec![in self.heap; 0u8; count]?;
        Ok(())
    }

    fn take_change(&mut self, words: &[&str]) -> anyhow::Result<()> {
        let (bottom, borrowed) = (self.case.bottom, self.case.bytes.as_mut_slice());
        match words {
            ["fill", seed] => fill(borrowed, number(seed)?)?,
            ["cells", address, word] => {
                let bytes = bytes(self.heap, word)?;
                set_cells(bottom, borrowed, number(address)?, &bytes)?;
            }
            ["clear", address, count] => {
                clear_cells(bottom, borrowed, number(address)?, number(count)?)?;
            }
            ["seal"] => seal(bottom, borrowed),
            ["flip", at, bit] => flip(borrowed, index(at)?, (number(bit)? % 8) as u8),
            _ => bail!("no case has such a line"),
        }
        self.enter(Part::Changes, Part::Changes)
    }

    fn take_board(&mut self, board: usize) -> anyhow::Result<()> {
        self.enter(Part::Changes, Part::SetUps)?;
        let layer = self.case.next_window();
        self.case.set_ups.push(SetUp {
            layer: layer.context("no window is without a board")?,
            board,
            writes: Vec::new(self.heap),
        })?;
        Ok(())
    }

    fn take_register(&mut self, number: u64, value: u64) -> anyhow::Result<()> {
        self.enter(Part::SetUps, Part::SetUps)?;
        let set_up = self.case.set_ups.last_mut();
        let writes = &mut set_up.context("a register is before any board")?.writes;
        writes.push(RegisterWrite { number, value })?;
        Ok(())
    }

    fn take_call(&mut self, access: Access, address: u64, buffer: Vec<u8>) -> anyhow::Result<()> {
        self.leave_set_ups(Part::Calls)?;
        self.case.calls.push(CallRecord {
            access,
            address,
            buffer,
            answer: None,
        })?;
        Ok(())
    }

    fn take_show(&mut self, index: usize, count: usize) -> anyhow::Result<()> {
        self.leave_set_ups(Part::Shows)?;
        self.case.shows.push(Show { index, count })?;
        Ok(())
    }
}
