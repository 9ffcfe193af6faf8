// A window from the values of its registers.
ghost use Rattle.std.specs.Prelude.{◌≡◌, length, IfSome};
ghost use Rattle.std.specs.Option.{option_map};
ghost use Rattle.bench_calls.specs.Image.{offered, armed_values, image, board_after};

use mapping::{ArmedSet, Mapping, RegisterSet};
use memory::Memory;
use window::Window;

// The window over this memory by these registers, or nothing where they do not arm.
pub(crate) fn opened<P: Mapping, M: Memory + Drop>(
    registers: &[u64; 5],
    below: M,
    board: &mut [u8],
) -> Option<Window<P, M>>
    requires { M.Memory.coherent below }
    ensures image { option_map (λ w. ⟦<Window<P, M> as Memory>⟧.meaning w) result ≡ image P.Registers.rules registers.now (M.Memory.meaning below) (length board.old) }
    ensures board { board.new ≡ board_after (image P.Registers.rules registers.now (M.Memory.meaning below) (length board.old)) board.old }
    ensures coherent { IfSome result (λ w. ⟦<Window<P, M> as Memory>⟧.coherent w) }
{
    let set = armed_set::<P>(registers)?;
    Some(Window::open(set, below, board))
}

// A value that is refused is passed over, since a mapping may lack the last registers.
fn armed_set<P: Mapping>(registers: &[u64; 5]) -> Option<ArmedSet<P>>
    ensures values { option_map (λ set. P.Mapping.values set.mapping) result ≡ armed_values P.Registers.rules (offered P.Registers.rules.widths registers.now) }
    ensures armed { IfSome result (λ set. P.Mapping.armed set.mapping) }
{
    let [image_size, table_page, second, third, fourth] = *registers;
    let mut set = RegisterSet::<P>::new();
    let _ = set.write(0, image_size);
    let _ = set.write(1, table_page);
    let _ = set.write(2, second);
    let _ = set.write(3, third);
    let _ = set.write(4, fourth);
    set.arm().ok()
}
