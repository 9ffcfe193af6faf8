// Where each mapping puts the bytes of its image, worked out from its registers, and the registers that a stack arms.
use colour::Colour;
use direct::Direct;
use stride::Stride;
use transpose::Transpose;

pub(crate) trait Placing {
    // The registers, from 0 on, of a window with so many windows below it, and how many cells of its image are bytes.
    fn registers(level: usize) -> (&'static [u64], usize);

    // The address in the data of a byte of the image, if one stands behind it.
    fn place(registers: &[u64], s: u64) -> Option<u64>;
}

impl Placing for Direct {
    fn registers(level: usize) -> (&'static [u64], usize) {
        match level {
            0 => (&[65536, 3], 65536),
            1 => (&[12288, 5], 12288),
            _ => (&[4096, 2], 4096),
        }
    }

    fn place(_registers: &[u64], s: u64) -> Option<u64> {
        Some(s)
    }
}

// Pages 1, 2, 5, 6 and so on of the lowest image are bytes, and pages 0, 2 and 4 of the next one.
impl Placing for Colour {
    fn registers(level: usize) -> (&'static [u64], usize) {
        match level {
            0 => (&[65536, 3, 16384, 8192, 4096], 32768),
            1 => (&[24576, 5, 8192, 4096, 0], 12288),
            _ => (&[8192, 2, 8192, 4096, 4096], 4096),
        }
    }

    fn place(registers: &[u64], s: u64) -> Option<u64> {
        let [_, _, way, colour, offset] = registers else {
            return None;
        };
        let round = s.checked_div(*way)?;
        let inside = s
            .checked_sub(round.checked_mul(*way)?)?
            .checked_sub(*offset)?;
        if inside < *colour {
            round.checked_mul(*colour)?.checked_add(inside)
        } else {
            None
        }
    }
}

impl Placing for Stride {
    fn registers(level: usize) -> (&'static [u64], usize) {
        match level {
            0 => (&[65536, 3, 64, 128, 32], 65536),
            1 => (&[12288, 5, 64, 128, 64], 12288),
            _ => (&[128, 2, 4, 128, 8], 128),
        }
    }

    fn place(registers: &[u64], s: u64) -> Option<u64> {
        let [_, _, object, stride, offset] = registers else {
            return None;
        };
        let number = s.checked_div(*object)?;
        let inside = s.checked_sub(number.checked_mul(*object)?)?;
        number
            .checked_mul(*stride)?
            .checked_add(*offset)?
            .checked_add(inside)
    }
}

impl Placing for Transpose {
    fn registers(level: usize) -> (&'static [u64], usize) {
        match level {
            0 => (&[65536, 3, 32, 8224, 8], 65536),
            1 => (&[12288, 5, 32, 3232, 4], 12288),
            _ => (&[2048, 2, 32, 480, 8], 2048),
        }
    }

    // The image has the columns of the matrix one after another, and each from its first row down.
    fn place(registers: &[u64], s: u64) -> Option<u64> {
        let [_, _, element, row_size, rows] = registers else {
            return None;
        };
        let number = s.checked_div(*element)?;
        let inside = s.checked_sub(number.checked_mul(*element)?)?;
        let column = number.checked_div(*rows)?;
        let row = number.checked_sub(column.checked_mul(*rows)?)?;
        row.checked_mul(*row_size)?
            .checked_add(column.checked_mul(*element)?)?
            .checked_add(inside)
    }
}
