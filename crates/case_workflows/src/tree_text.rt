//! Expressions, templates and conditions written out: each node in parentheses, its name first.
//!
//! `1 || 2 && !x.y` is `(|| 1 (&& 2 (! (. x "y"))))`; parentheses of the text are `(group ..)`, an index is `([] ..)`.

use case_reader::Page;
use expr_reader::{Equality, Function, Literal, Piece, Relation, Template, Tree, Wildcard};

/// The name of a function.
fn function_name(function: Function) -> &'static str {
    match function {
        Function::Contains => "contains",
        Function::StartsWith => "startsWith",
        Function::EndsWith => "endsWith",
        Function::Format => "format",
        Function::Join => "join",
        Function::ToJson => "toJSON",
        Function::FromJson => "fromJSON",
        Function::Success => "success",
        Function::Failure => "failure",
        Function::Cancelled => "cancelled",
        Function::Always => "always",
    }
}

/// What stands first in a node.
fn sign_of(tree: &Tree) -> &'static str {
    match tree {
        Tree::Literal(_) | Tree::Context(_) => "",
        Tree::Call(function, _) => function_name(*function),
        Tree::Both(_) => "&&",
        Tree::Either(_) => "||",
        Tree::Group(_) => "group",
        Tree::Not(_) => "!",
        Tree::Wildcard(Wildcard::Dotted, _) => ".*",
        Tree::Wildcard(Wildcard::Bracketed, _) => "[*]",
        Tree::Property(_, _) => ".",
        Tree::Index(_, _) => "[]",
        Tree::Relation(Relation::Less, _, _) => "<",
        Tree::Relation(Relation::AtMost, _, _) => "<=",
        Tree::Relation(Relation::Greater, _, _) => ">",
        Tree::Relation(Relation::AtLeast, _, _) => ">=",
        Tree::Equality(Equality::Equal, _, _) => "==",
        Tree::Equality(Equality::NotEqual, _, _) => "!=",
    }
}

/// Writes a literal.
fn put_literal(page: &mut Page<'_>, literal: &Literal) {
    match literal {
        Literal::Null => page.put("null"),
        Literal::Truth(truth) => write!(page, "{truth}"),
        Literal::Whole(number) => write!(page, "{number}"),
        Literal::Text(text) => write!(page, "\"{}\"", text.as_str()),
    }
}

/// A part of what is still to be written.
#[derive(Clone, Copy)]
enum Part<'a> {
    Tree(&'a Tree),
    Name(&'a str),
    End,
}

/// Writes the front of a node, and lays its parts and its end on what is still to be written.
fn open<'a>(page: &mut Page<'_>, rest: &mut Vec<Part<'a>>, name: &str, parts: &[Part<'a>]) {
    write!(page, "({name}");
    page.note(rest.push(Part::End));
    for part in parts.iter().rev() {
        page.note(rest.push(*part));
    }
}

/// Writes the front of a node, and lays any number of trees and its end on what is still to be written.
fn open_all<'a>(page: &mut Page<'_>, rest: &mut Vec<Part<'a>>, name: &str, trees: &'a [Tree]) {
    open(page, rest, name, &[]);
    for tree in trees.iter().rev() {
        page.note(rest.push(Part::Tree(tree)));
    }
}

/// Writes the front of a tree, and lays its parts.
fn put_front<'a>(page: &mut Page<'_>, rest: &mut Vec<Part<'a>>, tree: &'a Tree) {
    let sign = sign_of(tree);
    match tree {
        Tree::Literal(literal) => put_literal(page, literal),
        Tree::Context(context) => page.put(context.name()),
        Tree::Call(_, trees) | Tree::Both(trees) | Tree::Either(trees) => {
            open_all(page, rest, sign, trees.as_slice());
        },
        Tree::Group(inner) | Tree::Not(inner) | Tree::Wildcard(_, inner) => {
            open(page, rest, sign, &[Part::Tree(inner)]);
        },
        Tree::Property(base, name) => {
            let parts = [Part::Tree(base), Part::Name(name.as_str())];
            open(page, rest, sign, &parts);
        },
        Tree::Index(left, right)
        | Tree::Relation(_, left, right)
        | Tree::Equality(_, left, right) => {
            open(page, rest, sign, &[Part::Tree(left), Part::Tree(right)]);
        },
    }
}

/// Writes a tree. What is still to be written is laid on a stack, the next part on top.
pub fn put_tree(page: &mut Page<'_>, tree: &Tree) {
    let mut rest = Vec::new(page.alloc);
    put_front(page, &mut rest, tree);
    for _ in 0..usize::MAX {
        match rest.pop() {
            Some(Part::Tree(tree)) => {
                page.put(" ");
                put_front(page, &mut rest, tree);
            },
            Some(Part::Name(name)) => write!(page, " \"{name}\""),
            Some(Part::End) => page.put(")"),
            None => return,
        }
    }
}

/// Writes the pieces of a template, one a line.
pub fn put_pieces(page: &mut Page<'_>, template: &Template) {
    for piece in template.pieces.as_slice() {
        match piece {
            Piece::Text(text) => write!(page, "\"{}\"", text.as_str()),
            Piece::Expression(tree) => put_tree(page, tree),
        }
        page.put("\n");
    }
}
