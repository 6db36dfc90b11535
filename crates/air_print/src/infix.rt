//! Expressions in infix notation.
ghost use Rattle.std.specs.Prelude.{◌≡◌, ◌+◌, ◌<◌, ◌++◌, slice_index_or, None, All, OnOk, string_bytes};
ghost use Rattle.air_symbolic.specs.Pools.{size};
ghost use Rattle.air_print.specs.Infix.{shown_number, shown_at, infix_text};
ghost use Rattle.air_print.specs.Pieces.{piece_text, rest_text, IsPieceBelow, piece_size, rest_size};

use crate::binding::Binding;
use crate::names::Names;
use crate::pieces::{Piece, leave_node};
use air_field::PrimeField64;
use air_symbolic::{BaseLeaf, ExprId, ExprPool};
use std::alloc::{AllocError, Global};

// Appends a piece, or its beginning, and pushes the pieces that remain of it.
fn write_piece<F: PrimeField64>(
    text: &mut String,
    rest: &mut Vec<Piece<F>>,
    pool: &ExprPool<BaseLeaf<F>>,
    names: &Names<BaseLeaf<F>>,
    piece: Piece<F>,
) -> Result<(), AllocError>
    requires here { IsPieceBelow (size pool.now) piece }
    ensures text { let f = shown_number (λ i. slice_index_or names.now.1 i None) pool.now.nodes in
        OnOk result (string_bytes text.new ++ rest_text F.residues f rest.new.items ≡
        string_bytes text.old ++ (piece_text F.residues f piece
        ++ rest_text F.residues f rest.old.items)) }
    ensures here { OnOk result (All (IsPieceBelow (size pool.now)) rest.old.items →
        All (IsPieceBelow (size pool.now)) rest.new.items) }
    ensures size { let f = shown_number (λ i. slice_index_or names.now.1 i None) pool.now.nodes in
        OnOk result (rest_size f rest.new.items < rest_size f rest.old.items + piece_size f piece) }
{
    match piece {
        Piece::Operand(id, within) => match names.name(id) {
            Some(name) => write!(text, "%{name}"),
            None => leave_node(text, rest, *pool.node(id), within),
        },
        Piece::Plus => text.push_str(" + "),
        Piece::Minus => text.push_str(" - "),
        Piece::Times => text.push_str(" * "),
        Piece::Close => text.push_str(")"),
    }
}

// Appends all remaining pieces, the last one first.
fn write_rest<F: PrimeField64>(
    text: &mut String,
    mut rest: Vec<Piece<F>>,
    pool: &ExprPool<BaseLeaf<F>>,
    names: &Names<BaseLeaf<F>>,
) -> Result<(), AllocError>
    requires here { All (IsPieceBelow (size pool.now)) rest.items }
    ensures { let f = shown_number (λ i. slice_index_or names.now.1 i None) pool.now.nodes in
        OnOk result (string_bytes text.new ≡
        string_bytes text.old ++ rest_text F.residues f rest.items) }
{
    while let Some(piece) = rest.pop() {
        write_piece(text, &mut rest, pool, names, piece)?;
    }
    Ok(())
}

/// Appends the text of an expression: its name, if it has one; otherwise its node. Named parts appear by name.
pub fn push_infix<F: PrimeField64>(
    alloc: Global,
    text: &mut String,
    pool: &ExprPool<BaseLeaf<F>>,
    names: &Names<BaseLeaf<F>>,
    id: ExprId<BaseLeaf<F>>,
) -> Result<(), AllocError>
    requires here { id < size pool.now }
    ensures { OnOk result (string_bytes text.new ≡ string_bytes text.old ++
        infix_text F.residues Binding.Loose
        (shown_number (λ i. slice_index_or names.now.1 i None) pool.now.nodes id)) }
{
    let mut rest = Vec::new(alloc);
    rest.push(Piece::Operand(id, Binding::Loose))?;
    write_rest(text, rest, pool, names)
}

/// Appends the text of an expression's node, even if the expression has a name. Named parts appear by name.
pub fn push_definition<F: PrimeField64>(
    alloc: Global,
    text: &mut String,
    pool: &ExprPool<BaseLeaf<F>>,
    names: &Names<BaseLeaf<F>>,
    id: ExprId<BaseLeaf<F>>,
) -> Result<(), AllocError>
    requires here { id < size pool.now }
    ensures { OnOk result (string_bytes text.new ≡ string_bytes text.old ++
        infix_text F.residues Binding.Loose
        (shown_at (λ i. slice_index_or names.now.1 i None) pool.now.nodes id)) }
{
    let mut rest = Vec::new(alloc);
    leave_node(text, &mut rest, *pool.node(id), Binding::Loose)?;
    write_rest(text, rest, pool, names)
}
