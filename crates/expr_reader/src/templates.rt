//! Reads templates and conditions.

ghost use Rattle.std.specs.Prelude.{◌≡◌, ℕ, ◌+◌, ◌^◌, ◌<◌, ◌↔◌, IsTrue, List, length, IfOk, IfErr};
ghost use Rattle.expr_reader.specs.Template.{Piece as PieceOf, SpellsTemplate, IsTemplate, SpellsCondition, IsCondition, has_marker as has_marker_of, HoldsMarker};
ghost use Rattle.expr_reader.specs.Accepts.{is_template, is_condition, stands_for_itself as stands_for_itself_of, template_read, condition_read, TemplatesAreRead, ConditionsAreRead, ReadsAs, WhatStandsForItselfIsRead};
ghost use Rattle.expr_reader.specs.Faults.{Gives};
ghost use Rattle.expr_reader.specs.TemplateReading.{read_trimmed};
ghost use Rattle.expr_reader.specs.TemplateStands.{IsReadAs, TemplateFaultStands, ConditionFaultStands};
ghost use Rattle.expr_reader.specs.TemplateView.{template_of};

use crate::bytes::{Class, split_run, trim_end};
use crate::fault::ExprFault;
use crate::marks::has_marker;
use crate::pieces::{read_pieces, single};
use crate::reader::read_at;
use crate::status::names_status;
use crate::template::Template;
use std::alloc::Global;

/// The most bytes of a template.
const LONGEST: usize = 1_048_576;

/// Reads a template of at most 1,048,576 bytes: text with expressions between `${{` and the first `}}`
/// outside quotes, of which none may name a status function.
///
/// GitHub Docs, "Evaluate expressions in workflows and actions".
///
/// # Errors
///
/// A fault that stands in the text, with the number of bytes before its place; which one, where there
/// are several, is not promised. Or no memory was left.
pub fn read_template(alloc: Global, text: &str) -> Result<Template, ExprFault>
    // What is read is spelled so.
    ensures found { IfOk result (λ template. SpellsTemplate (template_of template) text.now) }
    // What is spelled so is read, unless memory runs out.
    ensures only { (ps : List PieceOf) → SpellsTemplate ps text.now → IsReadAs result ps }
    ensures stands { IfErr result (λ fault. TemplateFaultStands text.now fault) }
    ensures reads { ReadsAs result (template_read text.now) }
{
    read_marked(alloc, text)
}

// Reads a template.
fn read_marked(alloc: Global, text: &str) -> Result<Template, ExprFault>
    ensures found { IfOk result (λ template. SpellsTemplate (template_of template) text.now) }
    ensures only { (ps : List PieceOf) → SpellsTemplate ps text.now → IsReadAs result ps }
    ensures stands { IfErr result (λ fault. TemplateFaultStands text.now fault) }
{
    if text.len() > LONGEST {
        return Err(ExprFault::TooLong(LONGEST));
    }
    let mut status = None;
    match read_pieces(alloc, text, text.len(), &mut status) {
        Ok(pieces) => {
            let template = Template { pieces };
            if names_status(&template) {
                return Err(ExprFault::StatusHere(status.unwrap_or(0)));
            }
            Ok(template)
        }
        Err(fault) => Err(fault),
    }
}

/// Reads a condition, without the white space at its ends: one expression where no `${{` stands in it,
/// and otherwise a template of at most 1,048,576 bytes. It may name status functions.
///
/// GitHub Docs, "Workflow syntax for GitHub Actions", `jobs.<job_id>.if` and `jobs.<job_id>.steps[*].if`.
///
/// # Errors
///
/// A fault that stands in the text, with the number of bytes before its place; which one, where there
/// are several, is not promised. Or no memory was left.
pub fn read_condition(alloc: Global, text: &str) -> Result<Template, ExprFault>
    // What is read is spelled so.
    ensures found { IfOk result (λ template. SpellsCondition (template_of template) text.now) }
    // What is spelled so is read, unless memory runs out.
    ensures only { (ps : List PieceOf) → SpellsCondition ps text.now → IsReadAs result ps }
    ensures stands { IfErr result (λ fault. ConditionFaultStands text.now fault) }
    ensures reads { ReadsAs result (condition_read text.now) }
{
    let (_, start) = split_run(text, Class::White);
    let base = text.len() - start.len();
    let text = trim_end(start);
    read_trimmed(alloc, text, base)
}

// Reads a condition without white space at its ends, which begins at the place base.
fn read_trimmed(alloc: Global, text: &str, base: usize) -> Result<Template, ExprFault>
    requires { base + length text.now < 2 ^ 64 }
    ensures { Gives template_of result (read_trimmed base text.now) }
{
    let mut status = None;
    if !has_marker(text) {
        return match read_at(alloc, text, base, &mut status) {
            Ok(tree) => single(alloc, tree, base),
            Err(fault) => Err(fault),
        };
    }
    if text.len() > LONGEST {
        return Err(ExprFault::TooLong(base + LONGEST));
    }
    match read_pieces(alloc, text, base + text.len(), &mut status) {
        Ok(pieces) => Ok(Template { pieces }),
        Err(fault) => Err(fault),
    }
}

/// Whether a text needs no reading as a template: no expression stands in it, and it is no longer than a template may
/// be.
pub fn stands_for_itself(text: &str) -> bool
    ensures { result ≡ stands_for_itself_of text.now }
{
    text.len() <= LONGEST && !has_marker(text)
}

/// What stands for itself is a template of one piece, itself, or, where it is empty, of none.
pub fn itself_reading()
    ensures { WhatStandsForItselfIsRead }
{}

/// What `template_read` gives for a text is what the text spells as a template.
pub fn template_reading()
    ensures { TemplatesAreRead }
{}

/// What `condition_read` gives for a text is what the text spells as a condition.
pub fn condition_reading()
    ensures { ConditionsAreRead }
{}

/// The test `has_marker` tells the texts in which `${{` stands.
pub fn marker_test()
    ensures { (text : List ℕ) → IsTrue (has_marker_of text) ↔ HoldsMarker text }
{}

/// The test `is_template` tells the templates.
pub fn template_test()
    ensures { (text : List ℕ) → IsTrue (is_template text) ↔ IsTemplate text }
{}

/// The test `is_condition` tells the conditions.
pub fn condition_test()
    ensures { (text : List ℕ) → IsTrue (is_condition text) ↔ IsCondition text }
{}

/// No text spells two templates.
pub fn one_template()
    ensures { (ps qs : List PieceOf) (text : List ℕ)
        → SpellsTemplate ps text → SpellsTemplate qs text → ps ≡ qs }
{}

/// No text spells two conditions.
pub fn one_condition()
    ensures { (ps qs : List PieceOf) (text : List ℕ)
        → SpellsCondition ps text → SpellsCondition qs text → ps ≡ qs }
{}
