//! The state on which the lines of a table are tried.

use crate::checks::show_flat_check;
use crate::fibonacci::{layout_of, show_recording, show_traced};
use crate::flat_inputs::show_input;
use crate::runs::show_run;
use air_field::PrimeField64;
use std::alloc::Global;
use std::marker::PhantomData;
use test_lines::{Bench, Fault, Line, Names, Why};

/// The named inputs, and the field of all calls except `run`, which names its own.
#[derive(Drop)]
pub struct Program<'a, F> {
    inputs: Names<'a, &'a str>,
    field: PhantomData<F>,
}

impl<'a, F: PrimeField64 + 'static> Program<'a, F> {
    // Adds the answer of a run. The last two words give the input, by name or as text; the others are the program's
    // arguments.
    fn answer_run(&self, words: &[&'a str], text: &mut String) -> Result<(), Fault> {
        let alloc = self.inputs.alloc();
        if words.len() < 2 {
            return Err(Fault::Unreadable(Why::NoSuchCall));
        }
        let (said, given) = words.split_at(words.len() - 2);
        match given {
            ["<", name] => show_run(alloc, said, self.inputs.get(*name)?, text),
            ["<<<", input] => show_run(alloc, said, *input, text),
            _ => Err(Fault::Unreadable(Why::NoSuchCall)),
        }
    }

    // Adds the answer of a call that makes no input.
    fn answer_call(&self, words: &[&'a str], text: &mut String) -> Result<(), Fault> {
        let alloc = self.inputs.alloc();
        match words {
            ["run", rest @ ..] => self.answer_run(rest, text),
            ["flat_input_from", object] => show_input::<F>(alloc, *object, text),
            [call, "<", name] => show_flat_check::<F>(alloc, *call, self.inputs.get(*name)?, text),
            [call, "fibonacci", rest @ ..] => show_traced::<F>(alloc, *call, rest, text),
            [
                call,
                "main_width",
                width,
                "public_values",
                values,
                "periodic_columns",
                columns,
                "preprocessed_width",
                table,
            ] => {
                let layout = layout_of([*width, *values, *columns, *table])?;
                show_recording::<F>(alloc, *call, layout, text)
            }
            _ => Err(Fault::Unreadable(Why::NoSuchCall)),
        }
    }
}

impl<'a, F: PrimeField64 + 'static> Bench<'a> for Program<'a, F> {
    fn new(alloc: Global) -> Self {
        Program {
            inputs: Names::new(alloc),
            field: PhantomData,
        }
    }

    fn answer(&mut self, line: &Line<'a>, text: &mut String) -> Result<(), Fault> {
        match (line.words.as_slice(), line.name) {
            (["input", input], Some(name)) => {
                text.push_str(*input)?;
                self.inputs.bind(name, *input, line.times.is_some())
            }
            (words, None) => self.answer_call(words, text),
            (_, Some(_)) => Err(Fault::Unreadable(Why::MakesNothing)),
        }
    }

    fn show_state(&self, text: &mut String) -> Result<(), Fault> {
        for (name, input) in self.inputs.words().iter().zip(self.inputs.values()) {
            write!(text, "{name} = {input}\n")?;
        }
        Ok(())
    }
}
