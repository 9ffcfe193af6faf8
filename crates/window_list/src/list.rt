// A list of calls, made one after another on a window.
ghost use Rattle.std.specs.Prelude.{◌≡◌, is_ok, map};
ghost use Rattle.call_list.specs.Record.{recorded};
ghost use Rattle.window.specs.State.{Standing};
ghost use Rattle.window.specs.Report.{reported};
ghost use Rattle.window_list.specs.Played.{WindowPlayed};

use call_list::{CallRecord, play};
use mapping::Mapping;
use memory::Memory;
use window::{Window, WindowReport};

// Makes the calls in their order, leaves in each its answer and its buffer, and reports what was counted until then. A window that is
// shut refuses every call.
pub fn play_window<P: Mapping, M: Memory>(
    window: &mut Window<P, M>,
    calls: &mut [CallRecord],
) -> WindowReport
    requires { Standing (P.Mapping.armed window.old.mapping) (M.Memory.coherent window.old.below) (is_ok window.old.opening) (P.Mapping.meaning window.old.mapping) (M.Memory.meaning window.old.below) window.old.tlb }
    ensures played { WindowPlayed P.Mapping.armed P.Mapping.meaning M.Memory.meaning M.Memory.coherent M.Memory.step window.old window.new (map recorded calls.old) (map recorded calls.new) }
    ensures report { result ≡ reported P.Mapping.TYPE_NUMBER window.new.opening window.new.tlb }
{
    play(window, calls);
    window.report()
}
