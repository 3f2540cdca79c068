//! Tiles in words.
ghost use Rattle.std.specs.Prelude.{◌≡◌, ◌≤◌, IfOk, IfSome, IsTrue};
ghost use Rattle.query_syntax.specs.Reading.{or_fault};
ghost use Rattle.query_syntax.specs.Tiles.{is_tile, tile_if_fits, tile_value};
ghost use Rattle.query_syntax.specs.declared.fault.QueryFault.TheVariants.{BadTile};

use crate::fault::{QueryFault, WordFault};
use crate::words::next_piece;
use cube_view::Tile;
use texts::decimal_of;

/// The tile of these numbers, if there is one.
fn tile_from(depth: u8, z: u64, x: u64, y: u64) -> Option<Tile>
    requires { depth ≤ 20 }
    ensures valid { IfSome result (λ t. IsTrue (is_tile depth t)) }
    ensures value { result ≡ tile_if_fits depth (record { z = z; x = x; y = y }) }
{
    if z > u64::from(depth) {
        return None;
    }
    let side = 1u64 << z;
    if x >= side {
        return None;
    }
    if y >= side {
        return None;
    }
    Some(Tile {
        z: z as u8,
        x: x as u32,
        y: y as u32,
    })
}

/// The tile that the word writes, if it writes one.
#[tactic(auto, unfolding(crate::specs::Tiles::tile_value))]
fn tile_in(depth: u8, word: &[u8]) -> Option<Tile>
    requires { depth ≤ 20 }
    ensures valid { IfSome result (λ t. IsTrue (is_tile depth t)) }
    ensures value { result ≡ tile_value depth word.now }
{
    let (z, rest) = next_piece(word, b'/');
    let (x, rest) = next_piece(rest?, b'/');
    let (y, rest) = next_piece(rest?, b'/');
    if let Some(_) = rest {
        return None;
    }
    let z = decimal_of(z)?;
    let x = decimal_of(x)?;
    let y = decimal_of(y)?;
    tile_from(depth, z, x, y)
}

/// The tile that the word of that number writes.
pub fn tile_of(depth: u8, number: u32, word: &[u8]) -> Result<Tile, WordFault>
    requires { depth ≤ 20 }
    ensures valid { IfOk result (λ t. IsTrue (is_tile depth t)) }
    ensures read { result ≡ or_fault (tile_value depth word.now) BadTile number }
{
    tile_in(depth, word).ok_or(WordFault::at(QueryFault::BadTile, number))
}
