//! Laws of evaluation and of the status, each the contract of a function that does nothing.

ghost use Rattle.std.specs.Prelude.{◌≡◌, false, List, Ok, true};
ghost use Rattle.expr_reader.specs.Expr.{Expr, call, none};
ghost use Rattle.expr_reader.specs.Template.{Piece, expr_names_status, names_status};
ghost use Rattle.expr_reader.specs.declared.tree.Function.TheVariants.{Always};
ghost use Rattle.expr_value.specs.Condition.{condition_holds};
ghost use Rattle.expr_value.specs.Context.{Contexts};
ghost use Rattle.expr_value.specs.Evaluate.{value};
ghost use Rattle.expr_value.specs.Functions.{is_success};
ghost use Rattle.expr_value.specs.Named.{AgreeOn, expr_names_context, pieces_name_context};
ghost use Rattle.expr_value.specs.Ordered.{AreOrdered, HasOrderedKeys};
ghost use Rattle.expr_value.specs.Template.{template_value};
ghost use Rattle.expr_value.specs.declared.status.Status.{Status};
ghost use Rattle.flow_model.specs.Plain as plain;

/// `always()` is true, whatever the status.
pub fn always_is_true()
    ensures { (c : Contexts) (s : Status) → value c s (call Always none) ≡ Ok (plain.truth true) }
{}

/// A condition that names no status function does not hold where the status is not success, whatever it says.
pub fn condition_waits_for_success()
    ensures { (c : Contexts) (s : Status) (condition : List Piece)
        → names_status condition ≡ false → is_success s ≡ false
        → condition_holds c s condition ≡ Ok false }
{}

/// An expression that names no status function has one value, or one fault, under every status.
pub fn expression_without_status()
    ensures { (c : Contexts) (s t : Status) (expression : Expr)
        → expr_names_status expression ≡ false → value c s expression ≡ value c t expression }
{}

/// A template has one value, or one fault, under every status, since it names no status function.
pub fn template_without_status()
    ensures { (c : Contexts) (s t : Status) (template : List Piece)
        → names_status template ≡ false
        → template_value c s template ≡ template_value c t template }
{}

/// Over two maps of contexts that agree on each context that an expression names it has one value, or one fault.
pub fn expression_by_its_contexts()
    ensures { (c d : Contexts) (s : Status) (expression : Expr)
        → AgreeOn (λ x. expr_names_context x expression) c d
        → value c s expression ≡ value d s expression }
{}

/// Over two maps of contexts that agree on each context that a template names it has one value, or one fault.
pub fn template_by_its_contexts()
    ensures { (c d : Contexts) (s : Status) (template : List Piece)
        → AgreeOn (λ x. pieces_name_context x template) c d
        → template_value c s template ≡ template_value d s template }
{}

/// Over two maps of contexts that agree on each context that a condition names it holds or not alike.
pub fn condition_by_its_contexts()
    ensures { (c d : Contexts) (s : Status) (condition : List Piece)
        → AgreeOn (λ x. pieces_name_context x condition) c d
        → condition_holds c s condition ≡ condition_holds d s condition }
{}

/// Where each map in the contexts has its keys in order, so has each map in the value of an expression.
pub fn values_have_ordered_keys()
    ensures { (c : Contexts) (s : Status) (expression : Expr) (v : plain.Plain)
        → AreOrdered c → value c s expression ≡ Ok v → HasOrderedKeys v }
{}
