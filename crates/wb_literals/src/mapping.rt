// Mappings (Chapel Language Specification, Domain Maps).
ghost use Rattle.std.specs.Prelude.{◌≡◌, ◌↔◌, ℕ, ℤ, List, Some, None, codes, option_map, option_and_then};
ghost use Rattle.wb_literals.specs.Mapping.{last_grid_at, next_index_at, block_at, cyclic_at, block_cyclic_at, mapping_at, mapping_of};
ghost use Rattle.wb_literals.specs.Grammar.{IsMapping};
ghost use Rattle.wb_literals.specs.declared.mapping.MappingLiteral.{MappingLiteral};

use crate::index::{GridLiteral, IndexLiteral, grid_at, index_at};
use crate::rectangle::{RectangleLiteral, rectangle_at};
use crate::tokens::{after, after_token, close_at, comma_at};

/// A mapping as it is spelled. Its parts may differ in rank.
#[derive(Clone, Copy, Debug, PartialEq, Eq)]
pub enum MappingLiteral {
    /// `none`
    Whole,
    /// `blockDist(box, grid)`
    Block(RectangleLiteral, GridLiteral),
    /// `cyclicDist(start, grid)`
    Cyclic(IndexLiteral, GridLiteral),
    /// `blockCycDist(start, sizes, grid)`
    BlockCyclic(IndexLiteral, IndexLiteral, GridLiteral),
}

// A comma, a grid and the closing parenthesis.
fn last_grid_at(bytes: &[u8]) -> Option<(GridLiteral, &[u8])>
    ensures { option_map (λ x. (x.0, x.1.now)) result ≡ last_grid_at bytes.now }
{
    let rest = comma_at(bytes)?;
    let (grid, rest) = grid_at(rest)?;
    let rest = close_at(b")", rest)?;
    Some((grid, rest))
}

// A further index, after a comma.
fn next_index_at(bytes: &[u8]) -> Option<(IndexLiteral, &[u8])>
    ensures { option_map (λ x. (x.0, x.1.now)) result ≡ next_index_at bytes.now }
{
    let rest = comma_at(bytes)?;
    index_at(rest)
}

fn block_at(bytes: &[u8]) -> Option<(MappingLiteral, &[u8])>
    ensures { option_map (λ x. (x.0, x.1.now)) result ≡ block_at bytes.now }
{
    let (bounds, rest) = rectangle_at(bytes)?;
    let (grid, rest) = last_grid_at(rest)?;
    Some((MappingLiteral::Block(bounds, grid), rest))
}

fn cyclic_at(bytes: &[u8]) -> Option<(MappingLiteral, &[u8])>
    ensures { option_map (λ x. (x.0, x.1.now)) result ≡ cyclic_at bytes.now }
{
    let (start, rest) = index_at(bytes)?;
    let (grid, rest) = last_grid_at(rest)?;
    Some((MappingLiteral::Cyclic(start, grid), rest))
}

fn block_cyclic_at(bytes: &[u8]) -> Option<(MappingLiteral, &[u8])>
    ensures { option_map (λ x. (x.0, x.1.now)) result ≡ block_cyclic_at bytes.now }
{
    let (start, rest) = index_at(bytes)?;
    let (sizes, rest) = next_index_at(rest)?;
    let (grid, rest) = last_grid_at(rest)?;
    Some((MappingLiteral::BlockCyclic(start, sizes, grid), rest))
}

/// The mapping at the front, and what follows it.
pub fn mapping_at(bytes: &[u8]) -> Option<(MappingLiteral, &[u8])>
    ensures { option_map (λ x. (x.0, x.1.now)) result ≡ mapping_at bytes.now }
{
    if let Some(rest) = after_token(b"blockDist(", bytes) {
        return block_at(rest);
    }
    if let Some(rest) = after_token(b"cyclicDist(", bytes) {
        return cyclic_at(rest);
    }
    if let Some(rest) = after_token(b"blockCycDist(", bytes) {
        return block_cyclic_at(rest);
    }
    let rest = after(b"none", bytes)?;
    Some((MappingLiteral::Whole, rest))
}

// The mapping that all of the bytes spell.
fn whole_mapping(bytes: &[u8]) -> Option<MappingLiteral>
    ensures { result ≡ mapping_of bytes.now }
{
    let (mapping, rest) = mapping_at(bytes)?;
    if rest.len() == 0 { Some(mapping) } else { None }
}

/// The mapping that a text spells. A text is read just where the grammar spells the mapping by it.
pub fn read_mapping(text: &str) -> Option<MappingLiteral>
    ensures value { result ≡ mapping_of text.now }
    ensures spelling { (m : MappingLiteral) → (result ≡ Some m) ↔ IsMapping text.now m }
{
    whole_mapping(text.as_bytes())
}
