//! Texts in which what must not be seen is masked.

ghost use Rattle.std.specs.Prelude.{◌≡◌, ◌==◌, ◌∷◌, [], ◌++◌, ◌<◌, ◌≤◌, IfOk, IfSome, OnErr, OnOk, length, string_bytes, take};
ghost use Rattle.std.specs.Option.{option_map};
ghost use Rattle.std.specs.Str.{IsUtf8};
ghost use Rattle.flow_commands.specs.Mask.{longest as longest_of, masked, stars as stars_of};

use crate::mask_tree::MaskTree;
use crate::replace::{Rule, push_first, replace, replace_first};
use flow_model::{Duplicate, Sequence, Text};
use std::alloc::{AllocError, Global};
use std::marker::Model;

/// A list of masks, in which those that stand at the front of a text are found in one walk, however many there are.
#[derive(Drop)]
pub struct Masks {
    /// The masks, in the order in which they were added.
    texts: Sequence<Text>,
    /// The tree of these masks.
    tree: MaskTree,
    alloc: Global,
}

impl Model for Masks {
    ghost use Rattle.std.specs.Prelude.{List, ℕ};
    ghost use Rattle.std.specs.List.{AllByRecursion};
    ghost use Rattle.std.specs.Str.{IsUtf8};

    ghost Value = { List (List ℕ) };

    ghost use Rattle.flow_commands.specs.MaskTree.{IsTreeOf};

    ghost view = { λ m. m.texts };

    ghost invariant = { λ m. IsTreeOf m.texts m.tree × AllByRecursion IsUtf8 m.texts };
}

impl Masks {
    /// No masks. They take no memory.
    pub fn empty(alloc: Global) -> Masks
        ensures { result ≡ [] }
    {
        let texts = Sequence::empty(alloc);
        let tree = MaskTree::empty(alloc);
        Masks { texts, tree, alloc }
    }

    /// These texts as masks.
    pub fn of_texts(alloc: Global, texts: &[Text]) -> Result<Masks, AllocError>
        ensures { IfOk result (λ masks. masks ≡ texts.now) }
    {
        let mut masks = Masks::empty(alloc);
        for text in texts {
            masks.push(text.as_str())?;
        }
        Ok(masks)
    }

    /// Adds a mask; where memory runs out, nothing is changed.
    pub fn push(&mut self, mask: &str) -> Result<(), AllocError>
        ensures ok { OnOk result (self.new ≡ self.old ++ mask.now ∷ []) }
        ensures err { OnErr result (self.new ≡ self.old) }
    {
        let text = Text::from_str(self.alloc, mask)?;
        let node = self.tree.path(mask.as_bytes())?;
        self.texts.push(text)?;
        self.tree.mark(node);
        Ok(())
    }

    /// Whether there is no mask.
    pub fn is_empty(&self) -> bool
        ensures { result ≡ (length self.now == 0) }
    {
        self.texts.is_empty()
    }

    /// How many bytes the longest mask has that stands at the front of the text; 0 where none stands there.
    fn longest(&self, text: &[u8]) -> usize
        ensures exact { result ≡ longest_of self.now text.now }
        ensures within { result ≤ length text.now }
        ensures text { IsUtf8 (take result text.now) }
    {
        self.tree.longest(text)
    }
}

impl Duplicate for Masks {
    fn copy(&self, alloc: Global) -> Result<Masks, AllocError> {
        Masks::of_texts(alloc, self.texts.as_slice())
    }
}

/// Three stars for so many bytes of a mask, if there are any.
fn stars(hidden: usize) -> Option<(&'static str, usize)>
    ensures value { option_map (λ x. (x.0.now, x.1)) result ≡ stars_of hidden }
    ensures some { IfSome result (λ x. 0 < x.1) }
    ensures same { IfSome result (λ x. x.1 ≡ hidden) }
{
    if hidden == 0 {
        return None;
    }
    Some(("***", hidden))
}

/// Masks are replaced by three stars.
#[derive(Drop)]
struct Masking<'a> {
    masks: &'a Masks,
}

impl Rule for Masking<'_> {
    ghost use Rattle.flow_commands.specs.Mask.{masking};

    ghost rule = { λ m. masking m.masks.now };

    fn at(&self, text: &[u8]) -> Option<(&'static str, usize)> {
        stars(self.masks.longest(text))
    }
}

/// The masks of two lists are replaced by three stars.
#[derive(Drop)]
struct MaskingByBoth<'a> {
    given: &'a Masks,
    own: &'a Masks,
}

impl Rule for MaskingByBoth<'_> {
    ghost use Rattle.std.specs.Prelude.{◌++◌};
    ghost use Rattle.flow_commands.specs.Mask.{masking};

    ghost rule = { λ m. masking (m.given.now ++ m.own.now) };

    fn at(&self, text: &[u8]) -> Option<(&'static str, usize)> {
        let given = self.given.longest(text);
        let own = self.own.longest(text);
        if given < own {
            return stars(own);
        }
        stars(given)
    }
}

/// The text with three stars for the masks: from the left, at each place the longest mask that stands there. Empty masks
/// are passed over.
///
/// # Errors
///
/// There is no memory.
pub fn mask(alloc: Global, text: &str, masks: &Masks) -> Result<Text, AllocError>
    ensures { IfOk result (λ shown. shown ≡ masked masks.now text.now) }
{
    if masks.is_empty() {
        return Text::from_str(alloc, text);
    }
    replace(alloc, text, &Masking { masks })
}

/// Adds a text, up to its first mask of both lists with three stars for that, or its first piece, to what was made, and answers
/// what follows.
pub(crate) fn mask_first<'t>(
    made: &mut String,
    text: &'t str,
    given: &Masks,
    own: &Masks,
) -> Result<&'t str, AllocError>
    requires { 0 < length text.now }
    ensures made { IfOk result (λ rest. string_bytes made.new ++ masked (given.now ++ own.now) rest.now
        ≡ string_bytes made.old ++ masked (given.now ++ own.now) text.now) }
    ensures shorter { IfOk result (λ rest. length rest.now < length text.now) }
{
    if !own.is_empty() {
        return replace_first(made, text, &MaskingByBoth { given, own });
    }
    if !given.is_empty() {
        return replace_first(made, text, &Masking { masks: given });
    }
    push_first(made, text)
}

/// The text with three stars for the masks of both lists, as `mask` puts them for one list.
pub(crate) fn mask_by_both(
    alloc: Global,
    text: &str,
    given: &Masks,
    own: &Masks,
) -> Result<Text, AllocError>
    ensures { IfOk result (λ shown. shown ≡ masked (given.now ++ own.now) text.now) }
{
    let mut made = String::new(alloc);
    let mut rest = text;
    while !rest.is_empty() {
        rest = mask_first(&mut made, rest, given, own)?;
    }
    Ok(Text::new(made))
}
