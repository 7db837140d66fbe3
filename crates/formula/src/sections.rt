// A list in sections, each with a head: the blocks of a prefix, the rows of a matrix.
ghost use Rattle.std.specs.Prelude.{◌≡◌, ◌-◌, ◌<◌, ◌≤◌, ◌==◌, length, take, Some};
ghost use Rattle.std.specs.Option.{option_map};
ghost use Rattle.std.specs.List.{slice_get};
ghost use Rattle.formula.specs.Sections.{all_items, empty, items_of, with_item, with_section};

use std::marker::Model;
use table::Owned;

// The head of a complete section, and where the section ends among the items.
#[derive(Clone, Copy, Default)]
pub(crate) struct End<H> {
    head: H,
    end: usize,
}

// With no heap, all sections share one room: the items stand one section after another, and `ends` tells of each complete section. What stands behind the complete
// sections is the section that is begun.
#[derive(Drop)]
pub(crate) struct Sections<H, X, const MOST: usize, const ROOM: usize> {
    ends: Owned<End<H>, MOST>,
    items: Owned<X, ROOM>,
}

impl<H, X, const MOST: usize, const ROOM: usize> Model for Sections<H, X, MOST, ROOM> {
    ghost use Rattle.formula.specs.Sections.{Sections as Content, sections_code};

    ghost Value = { Content H X };

    ghost coded = { sections_code H.code X.code };

    ghost use Rattle.formula.specs.Ends.{SectionsLie, sections_in};

    ghost view = { λ s. sections_in s.ends s.items };

    ghost invariant = { λ s. SectionsLie s.ends s.items };
}

impl<H, X, const MOST: usize, const ROOM: usize> Sections<H, X, MOST, ROOM>
where
    H: Copy + Default,
    X: Copy + Default,
{
    // No section is complete, and the begun one has no item.
    pub(crate) fn new() -> Self
        ensures { result ≡ empty }
    {
        Sections {
            ends: Owned::new(),
            items: Owned::new(),
        }
    }

    // Back to no section and no item.
    pub(crate) fn clear(&mut self)
        ensures { self.new ≡ empty }
    {
        self.ends.clear();
        self.items.clear();
    }

    // How many complete sections there are.
    #[tactic(auto, using(crate::proofs::SectionLemmas::count_kept))]
    pub(crate) fn len(&self) -> usize
        ensures { result ≡ length self.now.complete }
    {
        self.ends.len()
    }

    // Whether there is no room for a section more.
    #[tactic(auto, using(crate::proofs::SectionLemmas::count_kept))]
    pub(crate) fn is_full(&self) -> bool
        ensures value { result ≡ (length self.now.complete == MOST) }
        ensures fits { length self.now.complete ≤ MOST }
    {
        self.ends.is_full()
    }

    // One item more in the section that is begun.
    #[tactic(auto, using(crate::proofs::SectionLemmas::all_kept, crate::proofs::SectionLemmas::item_more))]
    pub(crate) fn push(&mut self, item: X)
        requires { length (all_items self.old) < ROOM }
        ensures { self.new ≡ with_item item self.old }
    {
        self.items.push(item);
    }

    // The end of the section that is begun, and its head.
    #[tactic(auto, using(crate::proofs::SectionLemmas::count_kept, crate::proofs::SectionLemmas::section_more))]
    pub(crate) fn end(&mut self, head: H)
        requires { length self.old.complete < MOST }
        ensures { self.new ≡ with_section head self.old }
    {
        let end = self.items.len();
        self.ends.push(End { head, end });
    }

    // The head of the section i, counted from 0, which is there.
    #[tactic(auto, using(crate::proofs::SectionLemmas::head_kept, crate::proofs::SectionLemmas::count_kept))]
    pub(crate) fn head(&self, i: usize) -> H
        requires { i < length self.now.complete }
        ensures { Some result ≡ option_map (λ s. s.head) (slice_get self.now.complete i) }
    {
        self.ends.as_slice()[i].head
    }

    // The head of the last complete section.
    #[tactic(auto, using(crate::proofs::SectionLemmas::head_kept, crate::proofs::SectionLemmas::count_kept))]
    pub(crate) fn last_head(&self) -> Option<H>
        ensures { result ≡ option_map (λ s. s.head) (slice_get self.now.complete (length self.now.complete - 1)) }
    {
        Some(self.ends.as_slice().last()?.head)
    }

    // Where the section i begins among the items, if there are so many.
    #[tactic(auto, using(crate::proofs::SectionLemmas::start_kept, crate::proofs::Parts::last_or))]
    pub(crate) fn start(&self, i: usize) -> usize
        requires { i ≤ length self.now.complete }
        ensures { result ≡ length (items_of (take i self.now.complete)) }
    {
        self.ends.as_slice()[..i].last().map_or(0, |last| last.end)
    }

    // The items of the section i, counted from 0. In constant time.
    #[tactic(auto, using(crate::proofs::SectionLemmas::count_kept))]
    pub(crate) fn section(&self, i: usize) -> Option<&[X]>
        ensures { option_map (λ s. s.now) result ≡ option_map (λ s. s.items) (slice_get self.now.complete i) }
    {
        let end = self.ends.as_slice().get(i)?.end;
        Some(&self.items.as_slice()[self.start(i)..end])
    }

    // All items, those of the section that is begun among them.
    #[tactic(auto, using(crate::proofs::SectionLemmas::all_kept))]
    pub(crate) fn all(&self) -> &[X]
        ensures value { result.now ≡ all_items self.now }
        ensures fits { length result.now ≤ ROOM }
    {
        self.items.as_slice()
    }

    // The items of the complete sections.
    #[tactic(auto, using(crate::proofs::SectionLemmas::all_kept, crate::proofs::SectionLemmas::complete_kept, std::proofs::lemmas::Grind::common_steps))]
    pub(crate) fn complete(&self) -> &[X]
        ensures { result.now ≡ items_of self.now.complete }
    {
        let end = self.start(self.len());
        &self.items.as_slice()[..end]
    }

    // Whether the section that is begun has no item yet.
    pub(crate) fn begun_is_empty(&self) -> bool
        ensures { result ≡ (length self.now.begun == 0) }
    {
        self.complete().len() == self.all().len()
    }
}
