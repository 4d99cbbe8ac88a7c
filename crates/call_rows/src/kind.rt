//! The kinds of rows: what a table's first line may name, and what its rows give.
use crate::calls::{CALL_KINDS, CallKind, tell_call};
use crate::edge::{
    EDGE_BLOCK_KINDS, EDGE_LINE_KINDS, EdgeBlockKind, EdgeLineKind, FILE_KINDS, FileKind,
    tell_edge_block, tell_edge_line, tell_files,
};
use crate::inputs::{INPUT_KINDS, InputKind, tell_input};
use row_tables::{RowKind, Shape, Telling, found};
use std::alloc::Global;
use std::rt::Files;

/// What a table's rows are of.
#[derive(Clone, Copy)]
pub enum Kind {
    Input(InputKind),
    Line(EdgeLineKind),
    File(FileKind),
    Block(EdgeBlockKind),
    Call(CallKind),
}

impl RowKind for Kind {
    fn named(name: &str) -> Option<Kind> {
        if let Some(kind) = found(&INPUT_KINDS, name) {
            return Some(Kind::Input(kind));
        }
        if let Some(kind) = found(&EDGE_LINE_KINDS, name) {
            return Some(Kind::Line(kind));
        }
        if let Some(kind) = found(&FILE_KINDS, name) {
            return Some(Kind::File(kind));
        }
        if let Some(kind) = found(&EDGE_BLOCK_KINDS, name) {
            return Some(Kind::Block(kind));
        }
        Some(Kind::Call(found(&CALL_KINDS, name)?))
    }

    fn shape(self) -> Shape {
        match self {
            Kind::Input(_) | Kind::Line(_) | Kind::File(_) => Shape::Line,
            Kind::Block(_) | Kind::Call(_) => Shape::Block,
        }
    }

    fn tell<R: Files>(self, rt: &R, alloc: Global, row: &[u8], told: &mut Telling) -> Option<()> {
        let row = str::from_utf8(row).ok()?;
        match self {
            Kind::Input(kind) => tell_input(alloc, kind, row, &mut told.seen),
            Kind::Line(kind) => tell_edge_line(alloc, kind, row, &mut told.seen),
            Kind::File(kind) => tell_files(rt, alloc, kind, row, &mut told.seen),
            Kind::Block(kind) => {
                tell_edge_block(alloc, kind, row, &mut told.expected, &mut told.seen)
            }
            Kind::Call(kind) => tell_call(alloc, kind, row, &mut told.expected, &mut told.seen),
        }
    }
}
