// A list of calls, made one after another on one memory.
ghost use Rattle.std.specs.Prelude.{◌≡◌, ℕ, ◌≤◌, length, map};
ghost use Rattle.memory.specs.Reach.{Linked, cells_after, Step};
ghost use Rattle.call_list.specs.Record.{recorded, call_at, call_of, calls_of};
ghost use Rattle.call_list.specs.Model.{call_answer, buffer_after, made, played, model};
ghost use Rattle.call_list.specs.Played.{ListPlayed};

use crate::record::CallRecord;
use memory::{Access, Fault, Memory};

// Makes the calls in their order, and leaves in each its answer and its buffer.
#[tactic(auto, using(crate::proofs::Playing::list_played), unfolding(crate::specs::Model::played, memory::specs::Reach::after_calls, memory::specs::Reach::Linked))]
pub fn play<M: Memory>(memory: &mut M, calls: &mut [CallRecord])
    requires { M.Memory.coherent memory.old }
    ensures { ListPlayed M.Memory.meaning M.Memory.coherent M.Memory.step memory.old memory.new (map recorded calls.old) (map recorded calls.new) }
{
    for call in calls.iter_mut() {
        make(memory, call);
    }
}

// Makes one call, and leaves its answer in it.
#[tactic(auto, using(crate::proofs::Models::made_is))]
fn make<M: Memory>(memory: &mut M, call: &mut CallRecord)
    requires { M.Memory.coherent memory.old }
    ensures call { recorded call.new ≡ made (M.Memory.meaning memory.old) (recorded call.old) }
    ensures step { Step M.Memory.meaning M.Memory.coherent M.Memory.step memory.old (call_of (recorded call.old)) memory.new }
{
    let answer = ask(memory, call.access, call.address, &mut call.buffer);
    call.answer = Some(answer);
}

// One call of either sort.
fn ask<M: Memory>(
    memory: &mut M,
    access: Access,
    address: u64,
    buffer: &mut [u8],
) -> Result<(), Fault>
    requires { M.Memory.coherent memory.old }
    ensures answer { result ≡ call_answer (M.Memory.meaning memory.old) (call_at access address buffer.old) }
    ensures buffer { buffer.new ≡ buffer_after (M.Memory.meaning memory.old) (call_at access address buffer.old) }
    ensures cells { M.Memory.meaning memory.new ≡ cells_after (M.Memory.meaning memory.old) (call_at access address buffer.old) }
    ensures coherent { M.Memory.coherent memory.new }
    ensures step { M.Memory.step memory.old (call_at access address buffer.old) memory.new }
{
    match access {
        Access::Read => memory.read(address, buffer),
        Access::Write => memory.write(address, buffer),
    }
}
