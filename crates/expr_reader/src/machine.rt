//! Makes a tree of tokens, from the left, with a stack of what is open.

ghost use Rattle.std.specs.Prelude.{◌≡◌, ◌<◌, ◌≤◌, [], ◌∷◌, ◌++◌, Ok, Err, MatchOption};
ghost use Rattle.expr_reader.specs.Expr as expr;
ghost use Rattle.expr_reader.specs.Grammar as grammar;
ghost use Rattle.expr_reader.specs.Machine as machine;
ghost use Rattle.expr_reader.specs.Machine.{limits};
ghost use Rattle.expr_reader.specs.Outcome.{Gives, TakenOn};
ghost use Rattle.expr_reader.specs.Stack.{tree_of, trees_of, chain_of, chain_binding, chain_more, chained, part, parts, parts_of, held, state_of, token_of};
ghost use Rattle.expr_reader.specs.View.{view};

use crate::fault::{Fault, Refusal};
use crate::operand::{Chain, Operand, Trees};
use crate::room::add;
use crate::token::{Mark, Token};
use crate::tree::{Equality, Function, Relation, Tree, Wildcard};
use std::alloc::Global;

/// How tightly an open `||` binds, and so on; what is no operator binds 0.
const EITHER: u8 = 1;

const BOTH: u8 = 2;

const EQUALITY: u8 = 3;

const RELATION: u8 = 4;

const NOT: u8 = 5;

/// A node that still wants its last part.
#[derive(Drop)]
enum Frame {
    Chain(Chain, Trees),
    Equality(Equality, Operand),
    Relation(Relation, Operand),
    Not,
    Group,
    Index(Operand),
    Call(Function, Trees),
}

/// What comes next.
#[derive(Drop)]
enum Mode {
    /// An operand.
    Want,
    /// What may follow an operand.
    Have(Operand),
    /// The name or the star after a dot.
    Dotted(Operand),
    /// The parenthesis after a function's name.
    Called(Function),
    /// The bracket after `[*`.
    Starred(Operand),
}

/// The tokens so far.
#[derive(Drop)]
pub(crate) struct Machine {
    mode: Mode,
    /// What is open, the innermost last.
    frames: Vec<Frame>,
}

/// An operand over what is open.
type Held = (Operand, Vec<Frame>);

fn unexpected() -> Refusal
    ensures { result ≡ Refusal.Fault Fault.Unexpected }
{
    Refusal::Fault(Fault::Unexpected)
}

// What was read is not what may stand here.
fn refuse<T: Drop, R>(_: T) -> Result<R, Refusal>
    ensures { result ≡ Err (Refusal.Fault Fault.Unexpected) }
{
    Err(unexpected())
}

impl Chain {
    // How tightly the chain binds.
    fn binding(self) -> u8
        ensures value { result ≡ chain_binding self }
        ensures low { result ≤ 2 }
    {
        match self {
            Chain::Either => EITHER,
            Chain::Both => BOTH,
        }
    }
}

impl Frame {
    // How tightly an operator binds its last part; a bracket is no operator.
    fn binding(&self) -> u8
        ensures { result ≡ machine.binding (part self.now) }
    {
        match self {
            Frame::Group | Frame::Index(_) | Frame::Call(_, _) => 0,
            Frame::Chain(Chain::Either, _) => EITHER,
            Frame::Chain(Chain::Both, _) => BOTH,
            Frame::Equality(_, _) => EQUALITY,
            Frame::Relation(_, _) => RELATION,
            Frame::Not => NOT,
        }
    }
}

// How tightly the innermost of what is open binds, 0 where nothing is open.
fn top_binding(frames: &[Frame]) -> u8
    ensures { result ≡ machine.top_binding (parts_of frames.now) }
{
    match frames.last() {
        Some(frame) => frame.binding(),
        None => 0,
    }
}

fn pop(frames: &mut Vec<Frame>) -> Option<Frame>
    ensures { MatchOption result
        ((parts frames.old ≡ []) × (parts frames.new ≡ []))
        (λ f. parts frames.old ≡ part f ∷ parts frames.new) }
{
    frames.pop()
}

// An open operator with its last part.
fn completed(alloc: Global, frame: Frame, operand: Operand) -> Result<Operand, Refusal>
    requires { 1 ≤ machine.binding (part frame) }
    ensures { Gives tree_of result
        (machine.node limits (machine.completed (part frame) (tree_of operand))) }
{
    match frame {
        Frame::Chain(chain, trees) => Operand::chain(chain, trees, operand),
        Frame::Equality(equality, left) => Operand::equality(alloc, equality, left, operand),
        Frame::Relation(relation, left) => Operand::relation(alloc, relation, left, operand),
        Frame::Not => Operand::not(alloc, operand),
        Frame::Group | Frame::Index(_) | Frame::Call(_, _) => Ok(operand),
    }
}

// The innermost of what is open is taken, if it is an operator that binds so tightly.
fn pop_binding(frames: &mut Vec<Frame>, least: u8) -> Option<Frame>
    requires { 1 ≤ least }
    ensures { MatchOption result
        ((machine.top_binding (parts frames.old) < least) × (parts frames.new ≡ parts frames.old))
        (λ f. (least ≤ machine.binding (part f)) × (parts frames.old ≡ part f ∷ parts frames.new)) }
{
    if top_binding(frames.as_slice()) < least {
        return None;
    }
    pop(frames)
}

// What is open and binds at least so tightly takes the operand, the innermost first.
fn close(
    alloc: Global,
    mut operand: Operand,
    mut frames: Vec<Frame>,
    least: u8,
) -> Result<Held, Refusal>
    requires { 1 ≤ least }
    ensures { Gives held result (machine.close limits least (tree_of operand) (parts frames)) }
{
    while let Some(frame) = pop_binding(&mut frames, least) {
        operand = completed(alloc, frame, operand)?;
    }
    Ok((operand, frames))
}

fn have(operand: Operand, frames: Vec<Frame>) -> Machine
    ensures { state_of result ≡ machine.have (tree_of operand) (parts frames) }
{
    Machine {
        mode: Mode::Have(operand),
        frames,
    }
}

// A frame is opened, in which an operand comes next.
fn opened(mut frames: Vec<Frame>, frame: Frame) -> Result<Machine, Refusal>
    ensures { Gives state_of result (Ok (machine.want (part frame ∷ parts frames))) }
{
    add(&mut frames, frame)?;
    Ok(Machine {
        mode: Mode::Want,
        frames,
    })
}

// A chain with one part more.
fn chain_with(
    chain: Chain,
    trees: Trees,
    last: Operand,
    frames: Vec<Frame>,
) -> Result<Machine, Refusal>
    ensures { Gives state_of result (Ok (machine.want
        (chain_of chain (trees_of trees ++ tree_of last ∷ []) ∷ parts frames))) }
{
    opened(frames, Frame::Chain(chain, trees.push(last)?))
}

// The innermost chain goes on with the operand.
fn lengthened(operand: Operand, mut frames: Vec<Frame>) -> Result<Machine, Refusal>
    ensures { Gives state_of result (machine.lengthened (tree_of operand) (parts frames)) }
{
    match pop(&mut frames) {
        Some(Frame::Chain(chain, trees)) => chain_with(chain, trees, operand, frames),
        Some(other) => refuse((other, operand, frames)),
        None => refuse((operand, frames)),
    }
}

// A chain begins with the operand, or goes on with it.
#[tactic(auto, using(crate::proofs::Stacks::chain_goes_on, crate::proofs::Stacks::chain_begins))]
fn more(
    alloc: Global,
    chain: Chain,
    operand: Operand,
    frames: Vec<Frame>,
) -> Result<Machine, Refusal>
    ensures { Gives state_of result
        (Ok (machine.want (chain_more chain (tree_of operand) (parts frames)))) }
{
    if top_binding(frames.as_slice()) == chain.binding() {
        lengthened(operand, frames)
    } else {
        chain_with(chain, Trees::new(alloc), operand, frames)
    }
}

// A node that was made is an operand over what is open.
fn have_made(made: Result<Operand, Refusal>, frames: Vec<Frame>) -> Result<Machine, Refusal>
    ensures { TakenOn tree_of state_of made (λ e. Ok (machine.have e (parts frames))) result }
{
    Ok(have(made?, frames))
}

// The call has its last argument.
fn called_last(
    function: Function,
    arguments: Trees,
    last: Operand,
    frames: Vec<Frame>,
) -> Result<Machine, Refusal>
    ensures { Gives state_of result (machine.have_made (parts frames)
        (machine.called_with limits function
        (expr.exprs_of (trees_of arguments ++ tree_of last ∷ [])))) }
{
    have_made(Operand::call(function, arguments.push(last)?), frames)
}

// A closing parenthesis ends a group or a call.
fn end_round(alloc: Global, operand: Operand, mut frames: Vec<Frame>) -> Result<Machine, Refusal>
    ensures { Gives state_of result (machine.end_round limits (tree_of operand) (parts frames)) }
{
    match pop(&mut frames) {
        Some(Frame::Group) => have_made(Operand::group(alloc, operand), frames),
        Some(Frame::Call(function, trees)) => called_last(function, trees, operand, frames),
        Some(other) => refuse((other, operand, frames)),
        None => refuse((operand, frames)),
    }
}

// A closing bracket ends an index.
fn end_index(alloc: Global, operand: Operand, mut frames: Vec<Frame>) -> Result<Machine, Refusal>
    ensures { Gives state_of result (machine.end_index limits (tree_of operand) (parts frames)) }
{
    match pop(&mut frames) {
        Some(Frame::Index(base)) => have_made(Operand::index(alloc, base, operand), frames),
        Some(other) => refuse((other, operand, frames)),
        None => refuse((operand, frames)),
    }
}

// The call has one argument more.
fn next_argument(
    function: Function,
    arguments: Trees,
    last: Operand,
    frames: Vec<Frame>,
) -> Result<Machine, Refusal>
    ensures { Gives state_of result (Ok (machine.want
        (machine.call_of function (trees_of arguments ++ tree_of last ∷ []) ∷ parts frames))) }
{
    opened(frames, Frame::Call(function, arguments.push(last)?))
}

// A comma ends an argument.
fn end_argument(operand: Operand, mut frames: Vec<Frame>) -> Result<Machine, Refusal>
    ensures { Gives state_of result (machine.end_argument (tree_of operand) (parts frames)) }
{
    match pop(&mut frames) {
        Some(Frame::Call(function, trees)) => next_argument(function, trees, operand, frames),
        Some(other) => refuse((other, operand, frames)),
        None => refuse((operand, frames)),
    }
}

// The call has no arguments.
#[tactic(auto, using(crate::proofs::Depths::end_arguments))]
fn called_empty(
    function: Function,
    arguments: Trees,
    frames: Vec<Frame>,
) -> Result<Machine, Refusal>
    ensures { Gives state_of result
        (machine.end_empty limits (machine.call_of function (trees_of arguments) ∷ parts frames)) }
{
    if arguments.is_empty() {
        have_made(Operand::call(function, arguments), frames)
    } else {
        refuse((arguments, frames))
    }
}

// A closing parenthesis in an operand's place ends a call without arguments.
fn end_empty(mut frames: Vec<Frame>) -> Result<Machine, Refusal>
    ensures { Gives state_of result (machine.end_empty limits (parts frames)) }
{
    match pop(&mut frames) {
        Some(Frame::Call(function, trees)) => called_empty(function, trees, frames),
        Some(other) => refuse((other, frames)),
        None => refuse(frames),
    }
}

// A star in an operand's place comes after an opening bracket.
fn star_index(mut frames: Vec<Frame>) -> Result<Machine, Refusal>
    ensures { Gives state_of result (machine.star_index (parts frames)) }
{
    match pop(&mut frames) {
        Some(Frame::Index(base)) => Ok(Machine {
            mode: Mode::Starred(base),
            frames,
        }),
        Some(other) => refuse((other, frames)),
        None => refuse(frames),
    }
}

fn want_mark(frames: Vec<Frame>, mark: Mark) -> Result<Machine, Refusal>
    ensures { Gives state_of result (machine.want_mark limits (parts frames) mark) }
{
    match mark {
        Mark::Open => opened(frames, Frame::Group),
        Mark::Close => end_empty(frames),
        Mark::Star => star_index(frames),
        Mark::Not => opened(frames, Frame::Not),
        Mark::OpenIndex | Mark::CloseIndex | Mark::Dot | Mark::Comma | Mark::Both | Mark::Either =>
            refuse(frames),
    }
}

fn at_close(alloc: Global, operand: Operand, frames: Vec<Frame>) -> Result<Machine, Refusal>
    ensures { Gives state_of result
        (machine.have_mark limits (tree_of operand) (parts frames) Mark.Close) }
{
    let (operand, frames) = close(alloc, operand, frames, EITHER)?;
    end_round(alloc, operand, frames)
}

fn at_close_index(alloc: Global, operand: Operand, frames: Vec<Frame>) -> Result<Machine, Refusal>
    ensures { Gives state_of result
        (machine.have_mark limits (tree_of operand) (parts frames) Mark.CloseIndex) }
{
    let (operand, frames) = close(alloc, operand, frames, EITHER)?;
    end_index(alloc, operand, frames)
}

fn at_comma(alloc: Global, operand: Operand, frames: Vec<Frame>) -> Result<Machine, Refusal>
    ensures { Gives state_of result
        (machine.have_mark limits (tree_of operand) (parts frames) Mark.Comma) }
{
    let (operand, frames) = close(alloc, operand, frames, EITHER)?;
    end_argument(operand, frames)
}

// An operator goes on with a chain, or begins one.
fn at_chain(
    alloc: Global,
    chain: Chain,
    operand: Operand,
    frames: Vec<Frame>,
) -> Result<Machine, Refusal>
    ensures { Gives state_of result (chained chain (tree_of operand) (parts frames)) }
{
    let (operand, frames) = close(alloc, operand, frames, chain.binding() + 1)?;
    more(alloc, chain, operand, frames)
}

fn have_mark(
    alloc: Global,
    operand: Operand,
    frames: Vec<Frame>,
    mark: Mark,
) -> Result<Machine, Refusal>
    ensures { Gives state_of result
        (machine.have_mark limits (tree_of operand) (parts frames) mark) }
{
    match mark {
        Mark::Close => at_close(alloc, operand, frames),
        Mark::OpenIndex => opened(frames, Frame::Index(operand)),
        Mark::CloseIndex => at_close_index(alloc, operand, frames),
        Mark::Dot => Ok(Machine {
            mode: Mode::Dotted(operand),
            frames,
        }),
        Mark::Comma => at_comma(alloc, operand, frames),
        Mark::Both => at_chain(alloc, Chain::Both, operand, frames),
        Mark::Either => at_chain(alloc, Chain::Either, operand, frames),
        Mark::Open | Mark::Star | Mark::Not => refuse((operand, frames)),
    }
}

fn want_token(frames: Vec<Frame>, token: Token) -> Result<Machine, Refusal>
    ensures { Gives state_of result (machine.want_step limits (parts frames) (token_of token)) }
{
    match token {
        Token::Constant(literal) => Ok(have(Operand::literal(literal), frames)),
        Token::Root(context) => Ok(have(Operand::context(context), frames)),
        Token::Callee(function) => Ok(Machine {
            mode: Mode::Called(function),
            frames,
        }),
        Token::Mark(mark) => want_mark(frames, mark),
        other => refuse((other, frames)),
    }
}

fn at_relation(
    alloc: Global,
    relation: Relation,
    operand: Operand,
    frames: Vec<Frame>,
) -> Result<Machine, Refusal>
    ensures { Gives state_of result
        (machine.have_step limits (tree_of operand) (parts frames) (grammar.relational relation)) }
{
    let (left, frames) = close(alloc, operand, frames, RELATION)?;
    opened(frames, Frame::Relation(relation, left))
}

fn at_equality(
    alloc: Global,
    equality: Equality,
    operand: Operand,
    frames: Vec<Frame>,
) -> Result<Machine, Refusal>
    ensures { Gives state_of result
        (machine.have_step limits (tree_of operand) (parts frames) (grammar.equational equality)) }
{
    let (left, frames) = close(alloc, operand, frames, EQUALITY)?;
    opened(frames, Frame::Equality(equality, left))
}

fn have_token(
    alloc: Global,
    operand: Operand,
    frames: Vec<Frame>,
    token: Token,
) -> Result<Machine, Refusal>
    ensures { Gives state_of result
        (machine.have_step limits (tree_of operand) (parts frames) (token_of token)) }
{
    match token {
        Token::Relational(relation) => at_relation(alloc, relation, operand, frames),
        Token::Equational(equality) => at_equality(alloc, equality, operand, frames),
        Token::Mark(mark) => have_mark(alloc, operand, frames, mark),
        other => refuse((other, operand, frames)),
    }
}

fn dotted_token(
    alloc: Global,
    base: Operand,
    frames: Vec<Frame>,
    token: Token,
) -> Result<Machine, Refusal>
    ensures { Gives state_of result
        (machine.dotted_step limits (tree_of base) (parts frames) (token_of token)) }
{
    match token {
        Token::Name(name) => have_made(Operand::property(alloc, base, name), frames),
        Token::Mark(Mark::Star) => have_made(
            Operand::wildcard(alloc, Wildcard::Dotted, base),
            frames,
        ),
        other => refuse((other, base, frames)),
    }
}

fn called_token(
    alloc: Global,
    function: Function,
    frames: Vec<Frame>,
    token: Token,
) -> Result<Machine, Refusal>
    ensures { Gives state_of result (machine.called_step function (parts frames) (token_of token)) }
{
    match token {
        Token::Mark(Mark::Open) => opened(frames, Frame::Call(function, Trees::new(alloc))),
        other => refuse((other, frames)),
    }
}

fn starred_token(
    alloc: Global,
    base: Operand,
    frames: Vec<Frame>,
    token: Token,
) -> Result<Machine, Refusal>
    ensures { Gives state_of result
        (machine.starred_step limits (tree_of base) (parts frames) (token_of token)) }
{
    match token {
        Token::Mark(Mark::CloseIndex) => have_made(
            Operand::wildcard(alloc, Wildcard::Bracketed, base),
            frames,
        ),
        other => refuse((other, base, frames)),
    }
}

impl Machine {
    /// A machine that has met no token.
    pub(crate) fn new(alloc: Global) -> Machine
        ensures { state_of result ≡ machine.want [] }
    {
        Machine {
            mode: Mode::Want,
            frames: Vec::new(alloc),
        }
    }

    /// Whether a dot came last.
    pub(crate) fn is_dotted(&self) -> bool
        ensures { result ≡ machine.is_dotted (state_of self.now) }
    {
        match self.mode {
            Mode::Dotted(_) => true,
            Mode::Want | Mode::Have(_) | Mode::Called(_) | Mode::Starred(_) => false,
        }
    }

    /// Takes the next token.
    pub(crate) fn advance(self, alloc: Global, token: Token) -> Result<Machine, Refusal>
        ensures { Gives state_of result (machine.step limits (state_of self) (token_of token)) }
    {
        let Machine { mode, frames } = self;
        match mode {
            Mode::Want => want_token(frames, token),
            Mode::Have(operand) => have_token(alloc, operand, frames, token),
            Mode::Dotted(base) => dotted_token(alloc, base, frames, token),
            Mode::Called(function) => called_token(alloc, function, frames, token),
            Mode::Starred(base) => starred_token(alloc, base, frames, token),
        }
    }

    /// The tree, once all tokens were taken.
    pub(crate) fn finish(self, alloc: Global) -> Result<Tree, Refusal>
        ensures { Gives view result (machine.finish limits (state_of self)) }
    {
        let Machine { mode, frames } = self;
        match mode {
            Mode::Have(operand) => whole(alloc, operand, frames),
            other => refuse(other),
        }
    }
}

// The tree at the end of the tokens.
fn whole(alloc: Global, operand: Operand, frames: Vec<Frame>) -> Result<Tree, Refusal>
    ensures { Gives view result
        (machine.finish limits (machine.have (tree_of operand) (parts frames))) }
{
    let (operand, frames) = close(alloc, operand, frames, EITHER)?;
    end_text(operand, frames)
}

// At the end nothing may be open.
fn end_text(operand: Operand, mut frames: Vec<Frame>) -> Result<Tree, Refusal>
    ensures { Gives view result (machine.end_text (tree_of operand) (parts frames)) }
{
    match pop(&mut frames) {
        Some(frame) => refuse((frame, operand, frames)),
        None => Ok(operand.into_tree()),
    }
}
