//! Calls that keep no builder from one line to the next. The first word of a line says whose call it is.

use crate::airs::air;
use crate::bits::utils;
use crate::cells::boundary;
use crate::columns::{pair_col, virtual_pair_col};
use crate::hints::hint;
use crate::labels::names;
use crate::matrices::{matrix, view_pair};
use crate::windows::window;
use crate::words::word_gadget;
use air_field::PrimeField64;
use std::alloc::Global;
use std::marker::PhantomData;
use test_lines::{Bench, Fault, Line, Why};

/// The bench has no state: a line's values last for that line only.
#[derive(Drop)]
pub struct Values<F> {
    alloc: Global,
    field: PhantomData<F>,
}

impl<'a, F: PrimeField64 + 'static> Bench<'a> for Values<F> {
    fn new(alloc: Global) -> Self {
        Values {
            alloc,
            field: PhantomData,
        }
    }

    fn answer(&mut self, line: &Line<'a>, text: &mut String) -> Result<(), Fault> {
        let alloc = self.alloc;
        let [word, call @ ..] = line.words.as_slice() else {
            return Err(Fault::Unreadable(Why::NoSuchCall));
        };
        match *word {
            "RowMajorMatrix" => matrix(alloc, call, text),
            "ViewPair" => view_pair(alloc, call, text),
            "window" => window(alloc, call, text),
            "boundary" => boundary(alloc, call, text),
            "name" => names(alloc, call, text),
            "air" => air::<F>(alloc, call, text),
            "hint" => hint::<F>(alloc, call, text),
            "PairCol" => pair_col::<F>(alloc, call, text),
            "VirtualPairCol" => virtual_pair_col::<F>(alloc, call, text),
            "utils" => utils(alloc, call, text),
            "gadget" => word_gadget::<F>(alloc, call, text),
            _ => Err(Fault::Unreadable(Why::NoSuchCall)),
        }
    }

    fn show_state(&self, _text: &mut String) -> Result<(), Fault> {
        Ok(())
    }
}
