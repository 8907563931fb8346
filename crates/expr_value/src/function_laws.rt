//! Laws of the functions, each the contract of a function that does nothing.

ghost use Rattle.std.specs.Prelude.{◌≡◌, ◌<◌, ◌^◌, ◌++◌, ℕ, List, flat_map, Some, None, Ok, Err};
ghost use Rattle.std.specs.List.{slice_get, AllByRecursion};
ghost use Rattle.expr_reader.specs.Expr.{Expr, call, more, none};
ghost use Rattle.expr_reader.specs.declared.tree.Function.TheVariants.{FromJson, ToJson};
ghost use Rattle.expr_value.specs.Context.{Contexts};
ghost use Rattle.expr_value.specs.Evaluate.{value};
ghost use Rattle.expr_value.specs.Format.{formatted};
ghost use Rattle.expr_value.specs.FunctionLaws.{HasDigits, HasNoBrace, IsPrintable, Slot, filled_text, slot_text, with_doubled_braces, with_place};
ghost use Rattle.expr_value.specs.Functions.{format, text_of_value};
ghost use Rattle.expr_value.specs.Limit.{limited};
ghost use Rattle.expr_value.specs.Ordered.{AreOrdered};
ghost use Rattle.expr_value.specs.declared.status.Status.{Status};
ghost use Rattle.flow_model.specs.Plain.{Plain, text};
ghost use Rattle.flow_model.specs.declared.reply.ValueFault.TheVariants.{BadFormat};

/// `format` of a text without braces is that text, whatever the arguments.
pub fn format_without_braces()
    ensures { (arguments : List (List ℕ)) (bytes : List ℕ)
        → HasNoBrace bytes → formatted arguments bytes ≡ Some bytes }
{}

/// `format` of a text with each brace doubled is that text, whatever the arguments.
pub fn format_with_doubled_braces()
    ensures { (arguments : List (List ℕ)) (bytes : List ℕ)
        → formatted arguments (with_doubled_braces bytes) ≡ Some bytes }
{}

/// `format` of texts with their braces doubled and of places `{digits}` gives the texts and the arguments of the
/// places one after another, where each argument is there.
pub fn format_with_places()
    ensures { (arguments : List (List ℕ)) (slots : List Slot) → AllByRecursion HasDigits slots
        → formatted arguments (flat_map slot_text slots) ≡ filled_text arguments slots }
{}

/// `format` of a text with `{n}` in it, the braces round it doubled, gives the text with argument n in that place, or
/// is `BadFormat` where there is no such argument.
pub fn format_with_one_place()
    ensures given { (arguments : List Plain) (before after : List ℕ) (n : ℕ) (argument : Plain)
        → n < 2 ^ 64 → slice_get arguments n ≡ Some argument
        → format (text (with_place before n after)) arguments
        ≡ limited (before ++ (text_of_value argument ++ after)) }
    ensures missing { (arguments : List Plain) (before after : List ℕ) (n : ℕ)
        → n < 2 ^ 64 → slice_get arguments n ≡ None
        → format (text (with_place before n after)) arguments ≡ Err BadFormat }
{}

/// `fromJSON(toJSON(e))` has the value of e, where that is printable and each map in the contexts has its keys in
/// order, as the maps of a program have.
pub fn from_json_of_to_json()
    ensures { (c : Contexts) (s : Status) (e : Expr) (v : Plain)
        → AreOrdered c → value c s e ≡ Ok v → IsPrintable v
        → value c s (call FromJson (more (call ToJson (more e none)) none)) ≡ Ok v }
{}
