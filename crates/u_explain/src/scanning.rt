//! Places of a program's text, found by its lines.
ghost use Rattle.std.specs.Prelude.{◌≡◌, ◌<◌, ◌++◌, List, ℕ, suc, length};
ghost use Rattle.u_base.specs.Pieces.{lines, pieces};
ghost use Rattle.u_program.specs.FirstBad.{Begins};
ghost use Rattle.u_program.specs.Limits.{limits_of};
ghost use Rattle.u_explain.specs.Places.{IsPlace};

use crate::text_place::TextPlace;
use u_base::cut;

/// What stands after some lines.
#[derive(Clone, Copy)]
pub struct Behind<'a> {
    /// The place after them.
    pub place: TextPlace,
    /// The number of the line that stands there, from 1.
    pub number: usize,
    /// The bytes from there on.
    pub rest: &'a [u8],
}

/// What stands after so many lines, or after all that end with a newline if there are fewer.
pub fn behind_lines(bytes: &[u8], count: usize) -> Behind<'_>
    requires { count < 18446744073709551615 }
    ensures { (before others : List (List ℕ)) → lines bytes.now ≡ before ++ others
        → length before ≡ count → Begins limits_of before
        → IsPlace before result.place × (result.number ≡ suc (length before))
        × (pieces 10 result.rest.now ≡ (others, (pieces 10 bytes.now).1)) }
{
    let mut place = TextPlace::Header;
    let mut rest = bytes;
    for done in 0..count {
        let Some((line, others)) = cut(rest, b'\n') else {
            return Behind {
                place,
                number: done + 1,
                rest,
            };
        };
        place = place.behind(line);
        rest = others;
    }
    Behind {
        place,
        number: count + 1,
        rest,
    }
}

/// A line of a block.
#[derive(Clone, Copy)]
pub enum BlockLine {
    /// The line that begins it.
    Block,
    /// The line of the loop of that number.
    Loop(usize),
    /// The line of the statement of that number.
    Statement(usize),
}

/// Whether the place stands right after that line of the block of that number.
fn is_behind(place: TextPlace, block: usize, part: BlockLine) -> bool {
    let TextPlace::Inside {
        blocks,
        loops,
        statements,
        ..
    } = place
    else {
        return false;
    };
    let is_there = match part {
        BlockLine::Block => loops == 0 && statements == 0,
        BlockLine::Loop(number) => loops as usize == number && statements == 0,
        BlockLine::Statement(number) => statements as usize == number,
    };
    blocks as usize == block && is_there
}

/// The number of that line of a program's text, from 1, and the line.
pub fn line_of(bytes: &[u8], block: usize, part: BlockLine) -> Option<(usize, &[u8])> {
    let mut place = TextPlace::Header;
    let mut number = 0;
    let mut rest = bytes;
    while let Some((line, others)) = cut(rest, b'\n') {
        number += 1;
        place = place.behind(line);
        if is_behind(place, block, part) {
            return Some((number, line));
        }
        rest = others;
    }
    None
}
