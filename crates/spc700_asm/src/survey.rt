//! The first going over a source: the names that its lines define, or the first line with one of the four faults.
ghost use Rattle.std.specs.Prelude.{◌≡◌, ◌+◌, ◌≤◌, ◌++◌, [], None, length, IfOk, IfErr, OnOk};
ghost use Rattle.spc700_asm.specs.Instructions.{memory_end};
ghost use Rattle.spc700_asm.specs.Statements.{statement_of};
ghost use Rattle.spc700_asm.specs.Labels.{size_of_line, label_at, labels_of};
ghost use Rattle.spc700_asm.specs.Faults.{first_fault, first_refusal};
ghost use Rattle.spc700_asm.specs.Assembly.{lines_of, max_source};
ghost use Rattle.spc700_asm.specs.Seen.{statement_seen};
ghost use Rattle.spc700_asm.specs.Names.{Holds, OfNames, Defines, IsFault, IsRefusal};

use crate::faults::checked_size;
use crate::names::Names;
use crate::refusal::{AsmRefusal, LineError, LineFault};
use crate::statement::{Statement, statement_in};
use std::alloc::Global;
use text_form::first_part;

/// Defines the name of a statement at an address, where it is one.
fn define_label<'a>(
    names: &mut Names<'a>,
    at: u32,
    statement: &Statement<'a>,
) -> Result<(), LineError>
    ensures defined { Defines names.old names.new at (statement_seen statement.now) result }
    ensures memory { IfErr result (λ error. error ≡ LineError.OutOfMemory) }
{
    if let Statement::Name(name) = *statement {
        names.define(name, (at % 0x1_0000) as u16)?;
    }
    Ok(())
}

/// Goes over a line at an address: the address after it, its name among the names.
fn survey_line<'a>(names: &mut Names<'a>, at: u32, line: &'a [u8]) -> Result<u32, LineError>
    requires { at ≤ memory_end }
    ensures fault { OfNames names.old (λ labels. IfErr result (λ error. IsFault error (first_fault labels at (statement_of line.now)))) }
    ensures fine { OfNames names.old (λ labels. OnOk result (first_fault labels at (statement_of line.now) ≡ None)) }
    ensures defined { OfNames names.old (λ labels. OnOk result (Holds names.new (labels ++ label_at at (statement_of line.now)))) }
    ensures next { IfOk result (λ next. next ≡ at + size_of_line (statement_of line.now)) }
    ensures within { IfOk result (λ next. next ≤ memory_end) }
{
    let Some(statement) = statement_in(line) else {
        return Err(LineError::Fault(LineFault::Form));
    };
    match checked_size(names, at, &statement) {
        Err(fault) => Err(LineError::Fault(fault)),
        Ok(size) => {
            define_label(names, at, &statement)?;
            Ok(at + size)
        }
    }
}

/// The names that the lines of a source define from an origin on, or the first line with one of the four faults.
pub fn survey(alloc: Global, source: &[u8], origin: u16) -> Result<Names<'_>, AsmRefusal>
    requires { length source.now ≤ max_source }
    ensures fine { OnOk result (first_refusal origin [] (lines_of source.now) ≡ None) }
    ensures names { IfOk result (λ names. Holds names (labels_of origin (lines_of source.now))) }
    ensures refusal { IfErr result (λ refusal. IsRefusal refusal (first_refusal origin [] (lines_of source.now))) }
{
    let mut names = Names::new(alloc);
    let mut at = u32::from(origin);
    let mut number = 1;
    let mut rest = Some(source);
    'lines: while let Some(text) = rest {
        let (line, after) = first_part(b'\n', text);
        match survey_line(&mut names, at, line) {
            Ok(next) => at = next,
            Err(error) => return Err(error.at(number)),
        }
        number += 1;
        rest = after;
    }
    Ok(names)
}
