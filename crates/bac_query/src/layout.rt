//! The forms of what a walk brings.

ghost use Rattle.std.specs.Prelude.{◌<◌, length};
ghost use Rattle.bac_query.specs.Ahead.{PrintsLeft};
ghost use Rattle.bac_form.specs.declared.form.Form.TheVariants.{Csv, Json, Lines};
ghost use Rattle.bac_query.specs.Layouts.{BeginsWith};

use crate::csv_rows::{names_row, push_rows};
use crate::fault::QueryFault;
use crate::items::push_items;
use crate::json_lines::push_objects;
use crate::reading::print;
use bac_form::Form;
use bac_link::Item;
use std::alloc::{AllocError, Global};
use std::io::Write;

/// Prints what stands before the items, with one write: of CSV the row of names, of lines and
/// JSON nothing.
pub fn begin_layout<W: Write>(alloc: Global, layout: Form, out: &mut W) -> Result<(), QueryFault>
    ensures { BeginsWith layout result (W.contents out.old) (W.contents out.new) }
{
    match layout {
        Form::Lines => Ok(()),
        Form::Csv => print_names(alloc, out),
        Form::Json => Ok(()),
    }
}

/// Prints the row of names.
fn print_names<W: Write>(alloc: Global, out: &mut W) -> Result<(), QueryFault>
    ensures { BeginsWith Csv result (W.contents out.old) (W.contents out.new) }
{
    let Ok(row) = names_row(alloc) else {
        return Err(QueryFault::Memory);
    };
    print(&row, out)
}

/// Prints the text of items, with one write.
pub(crate) fn print_items<W: Write>(
    alloc: Global,
    layout: Form,
    text: &mut Vec<u8>,
    items: &[Item],
    out: &mut W,
) -> Result<(), QueryFault>
    requires { 0 < length items.now }
    ensures { PrintsLeft layout items.now result (W.contents out.old) (W.contents out.new) }
{
    match layout {
        Form::Lines => print_lines(text, items, out),
        Form::Csv => print_rows(alloc, text, items, out),
        Form::Json => print_objects(alloc, text, items, out),
    }
}

/// Prints the lines of items.
fn print_lines<W: Write>(text: &mut Vec<u8>, items: &[Item], out: &mut W) -> Result<(), QueryFault>
    requires { 0 < length items.now }
    ensures { PrintsLeft Lines items.now result (W.contents out.old) (W.contents out.new) }
{
    text.clear();
    if push_items(text, items).is_err() {
        return Err(QueryFault::Memory);
    }
    print(text, out)
}

/// Prints the rows of items.
fn print_rows<W: Write>(
    alloc: Global,
    text: &mut Vec<u8>,
    items: &[Item],
    out: &mut W,
) -> Result<(), QueryFault>
    requires { 0 < length items.now }
    ensures { PrintsLeft Csv items.now result (W.contents out.old) (W.contents out.new) }
{
    text.clear();
    match push_rows(alloc, text, items) {
        Ok(()) => print(text, out),
        Err(AllocError) => Err(QueryFault::Memory),
    }
}

/// Prints the lines of JSON of items.
fn print_objects<W: Write>(
    alloc: Global,
    text: &mut Vec<u8>,
    items: &[Item],
    out: &mut W,
) -> Result<(), QueryFault>
    requires { 0 < length items.now }
    ensures { PrintsLeft Json items.now result (W.contents out.old) (W.contents out.new) }
{
    text.clear();
    match push_objects(alloc, text, items) {
        Ok(()) => print(text, out),
        Err(AllocError) => Err(QueryFault::Memory),
    }
}
