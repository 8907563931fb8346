//! Laws of equality and of the relations, each the contract of a function that does nothing.

ghost use Rattle.std.specs.Prelude.{◌≡◌};
ghost use Rattle.expr_reader.specs.declared.tree.Equality.TheVariants.{Equal, NotEqual};
ghost use Rattle.expr_reader.specs.declared.tree.Relation.{Relation};
ghost use Rattle.expr_value.specs.Compare.{equals, equality_of, related};
ghost use Rattle.expr_value.specs.PlainKind.{PlainKind};
ghost use Rattle.expr_value.specs.Laws.{AreOpposite, mirror};

/// `a == b` is `b == a`, and faults alike.
pub fn equality_is_symmetric()
    ensures { (a b : PlainKind) → equals a b ≡ equals b a }
{}

/// `a != b` is the opposite of `a == b`, and faults alike.
pub fn inequality_is_opposite()
    ensures { (a b : PlainKind)
        → AreOpposite (equality_of Equal (equals a b)) (equality_of NotEqual (equals a b)) }
{}

/// `a < b` is `b > a`, `a <= b` is `b >= a`, and both fault alike.
pub fn relations_mirror()
    ensures { (relation : Relation) (a b : PlainKind)
        → related relation a b ≡ related (mirror relation) b a }
{}
