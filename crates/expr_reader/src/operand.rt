//! Trees on their way, with their depths.

ghost use Rattle.std.specs.Prelude.{◌≡◌, ◌≤◌, suc, max, ◌≢◌, ◌∷◌, ◌++◌, [], IfOk, IfErr, MatchBool, string_bytes};
ghost use Rattle.expr_reader.specs.Expr.{depth as depth_of, deepest as deepest_of, exprs_of, literal as literal_of, context as context_of, call as call_of, group as group_of, property as property_of, index as index_of, wildcard as wildcard_of, opposite, relation as relation_of, equality as equality_of};
ghost use Rattle.expr_reader.specs.Grammar.{takes as takes_of};
ghost use Rattle.expr_reader.specs.Machine.{limits, node, called_with, completed};
ghost use Rattle.expr_reader.specs.Outcome.{Gives, IsRefused};
ghost use Rattle.expr_reader.specs.View.{view, views, constant_of};

use crate::fault::{Fault, Refusal};
use crate::room::{add, boxed};
use crate::tree::{Context, Equality, Function, Literal, Relation, Tree, Wildcard};
use std::alloc::Global;

/// How deep a tree may be.
const DEEPEST: usize = 50;

/// A tree that is whole, with its depth.
#[derive(Drop)]
pub(crate) struct Operand {
    tree: Tree,
    height: usize,
    ghost measured: { height ≡ depth_of (view tree) },
    ghost shallow: { height ≤ 50 },
}

/// Trees one after another, with the depth of the deepest.
#[derive(Drop)]
pub(crate) struct Trees {
    trees: Vec<Tree>,
    height: usize,
    ghost measured: { height ≡ deepest_of (exprs_of (views trees.items)) },
    ghost shallow: { height ≤ 50 },
}

// The depth of a node over parts of which the deepest is so deep.
fn height_above(parts: usize) -> Result<usize, Refusal>
    ensures ok { IfOk result (λ height. (height ≡ suc parts) × (height ≤ 50)) }
    ensures err { IfErr result (λ e. (e ≡ Refusal.Fault Fault.TooDeep) × (50 ≤ parts)) }
{
    if parts >= DEEPEST {
        return Err(Refusal::Fault(Fault::TooDeep));
    }
    Ok(parts + 1)
}

/// A part of a node, on the heap, with the depth of the node.
#[derive(Drop)]
struct Part {
    tree: Box<Tree>,
    height: usize,
    ghost measured: { height ≡ suc (depth_of (view tree.value)) },
    ghost shallow: { height ≤ 50 },
}

/// The two parts of a node, on the heap, with the depth of the node.
#[derive(Drop)]
struct Sides {
    left: Box<Tree>,
    right: Box<Tree>,
    height: usize,
    ghost measured: { height ≡ suc (max (depth_of (view left.value)) (depth_of (view right.value))) },
    ghost shallow: { height ≤ 50 },
}

/// What joins the parts of a chain.
#[derive(Clone, Copy)]
pub(crate) enum Chain {
    /// `||`
    Either,
    /// `&&`
    Both,
}

impl Trees {
    ghost use Rattle.expr_reader.specs.Stack.{tree_of, trees_of};

    pub(crate) fn new(alloc: Global) -> Trees
        ensures { result.trees.items ≡ [] }
    {
        Trees {
            trees: Vec::new(alloc),
            height: 0,
        }
    }

    pub(crate) fn is_empty(&self) -> bool
        ensures { MatchBool result (self.now.trees.items ≡ []) (self.now.trees.items ≢ []) }
    {
        self.trees.is_empty()
    }

    #[tactic(auto, using(crate::proofs::Depths::deepest_push))]
    pub(crate) fn push(self, operand: Operand) -> Result<Trees, Refusal>
        ensures ok { IfOk result (λ t. trees_of t ≡ trees_of self ++ tree_of operand ∷ []) }
        ensures err { IfErr result (λ e. e ≡ Refusal.Memory) }
    {
        let Trees { mut trees, height } = self;
        let Operand { tree, height: last } = operand;
        add(&mut trees, tree)?;
        Ok(Trees {
            trees,
            height: height.max(last),
        })
    }
}

impl Operand {
    ghost use Rattle.expr_reader.specs.Stack.{tree_of, trees_of, chain_of};

    /// Its tree.
    pub(crate) fn into_tree(self) -> Tree
        ensures { view result ≡ tree_of self }
    {
        self.tree
    }

    pub(crate) fn literal(literal: Literal) -> Operand
        ensures { tree_of result ≡ literal_of (constant_of literal) }
    {
        Operand {
            tree: Tree::Literal(literal),
            height: 1,
        }
    }

    pub(crate) fn context(context: Context) -> Operand
        ensures { tree_of result ≡ context_of context }
    {
        Operand {
            tree: Tree::Context(context),
            height: 1,
        }
    }

    // The operand as the part of a node.
    fn into_part(self, alloc: Global) -> Result<Part, Refusal>
        ensures ok { IfOk result (λ part. view part.tree.value ≡ tree_of self) }
        ensures err { IfErr result (IsRefused (depth_of (tree_of self))) }
    {
        let Operand { tree, height } = self;
        let height = height_above(height)?;
        let tree = boxed(alloc, tree)?;
        Ok(Part { tree, height })
    }

    // Two operands as the parts of a node.
    fn into_sides(self, alloc: Global, right: Operand) -> Result<Sides, Refusal>
        ensures left { IfOk result (λ sides. view sides.left.value ≡ tree_of self) }
        ensures right { IfOk result (λ sides. view sides.right.value ≡ tree_of right) }
        ensures err { IfErr result
            (IsRefused (max (depth_of (tree_of self)) (depth_of (tree_of right)))) }
    {
        let left = self.into_part(alloc)?;
        let right = right.into_part(alloc)?;
        Ok(Sides {
            left: left.tree,
            right: right.tree,
            height: left.height.max(right.height),
        })
    }

    pub(crate) fn group(alloc: Global, inner: Operand) -> Result<Operand, Refusal>
        ensures { Gives tree_of result (node limits (group_of (tree_of inner))) }
    {
        let inner = inner.into_part(alloc)?;
        Ok(Operand {
            tree: Tree::Group(inner.tree),
            height: inner.height,
        })
    }

    pub(crate) fn property(alloc: Global, base: Operand, name: String) -> Result<Operand, Refusal>
        ensures { Gives tree_of result
            (node limits (property_of (tree_of base) (string_bytes name))) }
    {
        let base = base.into_part(alloc)?;
        Ok(Operand {
            tree: Tree::Property(base.tree, name),
            height: base.height,
        })
    }

    pub(crate) fn index(alloc: Global, base: Operand, index: Operand) -> Result<Operand, Refusal>
        ensures { Gives tree_of result (node limits (index_of (tree_of base) (tree_of index))) }
    {
        let sides = base.into_sides(alloc, index)?;
        Ok(Operand {
            tree: Tree::Index(sides.left, sides.right),
            height: sides.height,
        })
    }

    pub(crate) fn wildcard(
        alloc: Global,
        wildcard: Wildcard,
        base: Operand,
    ) -> Result<Operand, Refusal>
        ensures { Gives tree_of result (node limits (wildcard_of wildcard (tree_of base))) }
    {
        let base = base.into_part(alloc)?;
        Ok(Operand {
            tree: Tree::Wildcard(wildcard, base.tree),
            height: base.height,
        })
    }

    pub(crate) fn not(alloc: Global, operand: Operand) -> Result<Operand, Refusal>
        ensures { Gives tree_of result (node limits (opposite (tree_of operand))) }
    {
        let operand = operand.into_part(alloc)?;
        Ok(Operand {
            tree: Tree::Not(operand.tree),
            height: operand.height,
        })
    }

    pub(crate) fn relation(
        alloc: Global,
        relation: Relation,
        left: Operand,
        right: Operand,
    ) -> Result<Operand, Refusal>
        ensures { Gives tree_of result
            (node limits (relation_of relation (tree_of left) (tree_of right))) }
    {
        let sides = left.into_sides(alloc, right)?;
        Ok(Operand {
            tree: Tree::Relation(relation, sides.left, sides.right),
            height: sides.height,
        })
    }

    pub(crate) fn equality(
        alloc: Global,
        equality: Equality,
        left: Operand,
        right: Operand,
    ) -> Result<Operand, Refusal>
        ensures { Gives tree_of result
            (node limits (equality_of equality (tree_of left) (tree_of right))) }
    {
        let sides = left.into_sides(alloc, right)?;
        Ok(Operand {
            tree: Tree::Equality(equality, sides.left, sides.right),
            height: sides.height,
        })
    }

    /// A chain, with its last part.
    pub(crate) fn chain(chain: Chain, parts: Trees, last: Operand) -> Result<Operand, Refusal>
        ensures { Gives tree_of result
            (node limits (completed (chain_of chain (trees_of parts)) (tree_of last))) }
    {
        let parts = parts.push(last)?;
        let height = height_above(parts.height)?;
        match chain {
            Chain::Either => Ok(Operand {
                tree: Tree::Either(parts.trees),
                height,
            }),
            Chain::Both => Ok(Operand {
                tree: Tree::Both(parts.trees),
                height,
            }),
        }
    }

    #[tactic(auto, using(crate::proofs::Depths::count_views))]
    pub(crate) fn call(function: Function, arguments: Trees) -> Result<Operand, Refusal>
        ensures { Gives tree_of result
            (called_with limits function (exprs_of (trees_of arguments))) }
    {
        if takes(function, arguments.trees.len()) {
            Operand::fitting_call(function, arguments)
        } else {
            Err(Refusal::Fault(Fault::ArgumentCount))
        }
    }

    fn fitting_call(function: Function, arguments: Trees) -> Result<Operand, Refusal>
        ensures { Gives tree_of result
            (node limits (call_of function (exprs_of (trees_of arguments)))) }
    {
        let height = height_above(arguments.height)?;
        Ok(Operand {
            tree: Tree::Call(function, arguments.trees),
            height,
        })
    }
}

// Whether a function takes so many arguments.
fn takes(function: Function, count: usize) -> bool
    ensures { result ≡ takes_of function count }
{
    match function {
        Function::Contains | Function::StartsWith | Function::EndsWith => count == 2,
        Function::Format => 1 <= count,
        Function::Join => 1 <= count && count <= 2,
        Function::ToJson | Function::FromJson => count == 1,
        Function::Success | Function::Failure | Function::Cancelled | Function::Always => count
            == 0,
    }
}
