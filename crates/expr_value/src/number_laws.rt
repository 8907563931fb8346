//! Laws of the numbers that texts write, each the contract of a function that does nothing.

ghost use Rattle.std.specs.Prelude.{◌≡◌, ◌≢◌, ◌≤◌, ◌↔◌, ◌++◌, [], ℕ, ℤ, List, codes, pos, true, Some, None, Ok, Err};
ghost use Rattle.std.specs.Fmt.{signed_decimal};
ghost use Rattle.expr_reader.specs.Number.{greatest, digits_value, negative};
ghost use Rattle.expr_value.specs.JsonNumber.{IsInteger, IsNotWhole, IsNumber};
ghost use Rattle.expr_value.specs.Number.{number_of_text};
ghost use Rattle.flow_model.specs.Rules.{is_whole};
ghost use Rattle.flow_model.specs.declared.reply.ValueFault.TheVariants.{NotWhole};

/// The number of a whole number's decimal text is that number, for each that is in range.
pub fn decimal_is_its_number()
    ensures { (z : ℤ) → is_whole z ≡ true → number_of_text (signed_decimal z) ≡ Ok (Some z) }
{}

/// An integer in range is the value of its digits, and with a minus before it the opposite of that; so `-0` is 0.
pub fn integer_has_its_value()
    ensures { (digits : List ℕ) → IsInteger digits → digits_value 10 0 digits ≤ greatest
        → (number_of_text digits ≡ Ok (Some (pos (digits_value 10 0 digits))))
        × (number_of_text (codes "-" ++ digits) ≡ Ok (Some (negative (digits_value 10 0 digits)))) }
{}

/// A text is not-a-number exactly where it is not empty and is no number of JSON.
pub fn other_text_is_no_number()
    ensures { (text : List ℕ)
        → (number_of_text text ≡ Ok None) ↔ ((text ≢ []) × ¬ IsNumber text) }
{}

/// A text is `NotWhole` exactly where it is a number of JSON that has a fraction or an exponent, or is out of range.
pub fn other_number_is_not_whole()
    ensures { (text : List ℕ) → (number_of_text text ≡ Err NotWhole) ↔ IsNotWhole text }
{}
