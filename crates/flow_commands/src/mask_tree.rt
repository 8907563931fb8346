//! A tree of masks: one walk along a text finds the longest that stands at its front.

ghost use Rattle.std.specs.Prelude.{◌≡◌, ℕ, ◌≤◌, [], ◌∷◌, ◌++◌, List, Some, None, length};
ghost use Rattle.flow_commands.specs.Mask.{longest as longest_of};
ghost use Rattle.flow_commands.specs.MaskTree.{IsTreeOf, Leads, edges_of, is_end as is_end_of, reached};

use std::alloc::{AllocError, Global};
use std::collections::HashMap;

/// Nodes that are reached byte by byte. The root is node 0; a mask ends at each node that is marked.
#[derive(Drop)]
pub(crate) struct MaskTree {
    /// The bytes that may lead on from the root.
    firsts: [bool; 256],
    /// Where a byte leads from a node.
    edges: HashMap<(usize, u8), usize>,
    /// Which of the nodes after the root are marked.
    ends: Vec<bool>,
}

impl MaskTree {
    /// The tree of no mask. It takes no memory.
    pub(crate) fn empty(alloc: Global) -> MaskTree
        ensures { IsTreeOf [] result }
    {
        let edges = HashMap::new(alloc);
        let ends = Vec::new(alloc);
        MaskTree {
            firsts: [false; 256],
            edges,
            ends,
        }
    }

    /// Where a byte leads from a node.
    fn next(&self, node: usize, byte: u8) -> Option<usize>
        ensures { result ≡ edges_of self.now node byte }
    {
        self.edges.get(&(node, byte)).copied()
    }

    /// Whether a mask ends at a node.
    fn is_end(&self, node: usize) -> bool
        ensures { result ≡ is_end_of self.now.ends.items node }
    {
        match node.checked_sub(1) {
            Some(place) => self.ends.get(place).copied().unwrap_or(false),
            None => false,
        }
    }

    /// How many bytes the longest mask has that stands at the front of the text.
    fn walk(&self, text: &[u8]) -> usize
        ensures { (masks : List (List ℕ)) → IsTreeOf masks self.now
            → result ≡ longest_of masks text.now }
    {
        let mut node = 0;
        let mut most = 0;
        for (place, byte) in text.iter().enumerate() {
            let Some(next) = self.next(node, *byte) else {
                return most;
            };
            if self.is_end(next) {
                most = place + 1;
            }
            node = next;
        }
        most
    }

    /// How many bytes the longest mask has that stands at the front of the text; 0 where none stands there.
    pub(crate) fn longest(&self, text: &[u8]) -> usize
        ensures { (masks : List (List ℕ)) → IsTreeOf masks self.now
            → result ≡ longest_of masks text.now }
    {
        let Some(first) = text.first() else {
            return 0;
        };
        if self.firsts[usize::from(*first)] {
            return self.walk(text);
        }
        0
    }

    /// Adds a node, to which a byte leads from this one.
    fn grow(&mut self, node: usize, byte: u8) -> Result<usize, AllocError>
        ensures { (masks : List (List ℕ)) (text : List ℕ) → IsTreeOf masks self.old
            → reached (edges_of self.old) text ≡ Some node → edges_of self.old node byte ≡ None
            → Leads masks self.new (text ++ byte ∷ []) result }
    {
        self.ends.push(false)?;
        let new = self.ends.len();
        drop(self.edges.insert((node, byte), new)?);
        if node == 0 {
            self.firsts[usize::from(byte)] = true;
        }
        Ok(new)
    }

    /// Where a byte leads from a node. A node is added where it leads nowhere.
    fn lead(&mut self, node: usize, byte: u8) -> Result<usize, AllocError>
        ensures { (masks : List (List ℕ)) (text : List ℕ) → IsTreeOf masks self.old
            → reached (edges_of self.old) text ≡ Some node
            → Leads masks self.new (text ++ byte ∷ []) result }
    {
        match self.next(node, byte) {
            Some(next) => Ok(next),
            None => self.grow(node, byte),
        }
    }

    /// The node that a text leads to, which is added where there is none. The masks stay the same, also where memory runs
    /// out.
    pub(crate) fn path(&mut self, text: &[u8]) -> Result<usize, AllocError>
        ensures { (masks : List (List ℕ)) → IsTreeOf masks self.old
            → Leads masks self.new text.now result }
    {
        let mut node = 0;
        for byte in text {
            node = self.lead(node, *byte)?;
        }
        Ok(node)
    }

    /// Marks a node: the text that leads to it is one more mask.
    pub(crate) fn mark(&mut self, node: usize)
        requires { node ≤ length self.old.ends.items }
        ensures { (masks : List (List ℕ)) (mask : List ℕ) → IsTreeOf masks self.old
            → reached (edges_of self.old) mask ≡ Some node
            → IsTreeOf (masks ++ mask ∷ []) self.new }
    {
        if 0 < node {
            self.ends[node - 1] = true;
        }
    }
}
