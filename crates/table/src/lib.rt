// A growing table on memory that the caller hands in, and the join of two sorted parts of it.
#![tactic(auto)]

mod join;
mod owned;
mod slab;

pub use join::{Keyed, Meeting, Span, SpanWalk, Walk};
pub use owned::Owned;
pub use slab::{Full, Table};

#[cfg(test)]
mod tests {
    use super::{Full, Keyed, Meeting, Span, SpanWalk, Table, Walk};

    #[test]
    fn three_slots_take_three_entries(rt: HostRuntime) {
        let mut memory = [0u16; 3];
        let mut table = Table::new(&mut memory, 8);
        assert_eq!(rt; table.push(5), Ok(0));
        assert_eq!(rt; table.push(6), Ok(1));
        assert_eq!(rt; table.room(), 1);
        assert_eq!(rt; table.get(2), None);
        assert_eq!(rt; table.push(7), Ok(2));
        assert_eq!(rt; table.push(8), Err(Full));
        assert!(rt; table.as_slice() == [5, 6, 7].as_slice());
    }

    #[test]
    fn a_limit_or_no_memory_leaves_no_room(rt: HostRuntime) {
        let mut memory = [1u16, 2];
        let mut limited = Table::new(&mut memory, 0);
        assert_eq!(rt; limited.push(5), Err(Full));
        assert_eq!(rt; limited.len(), 0);
        let mut nothing: [u16; 0] = [];
        let mut table = Table::new(&mut nothing, 8);
        assert_eq!(rt; table.push(5), Err(Full));
        assert_eq!(rt; table.get(0), None);
    }

    #[test]
    fn items_and_kept_entries_go_in_as_far_as_there_is_room(rt: HostRuntime) {
        let mut memory = [0u16; 6];
        let mut table = Table::new(&mut memory, 8);
        table.extend((1..5).map(|x| x * 10));
        assert!(rt; !table.is_full());
        table.append_kept(Span { from: 1, to: 4 }, |x| *x != 30);
        assert!(rt; table.as_slice() == [10, 20, 30, 40, 20, 40].as_slice());
        assert!(rt; table.is_full());
        table.append_kept(Span { from: 0, to: 6 }, |_| true);
        assert_eq!(rt; table.len(), 6);
    }

    // An entry that came at some time: of two with the same key, the join has the one from the second list.
    #[derive(Clone, Copy, Debug, PartialEq)]
    struct Dated {
        key: u32,
        time: u32,
    }

    impl Keyed for Dated {
        ghost key = { λ e. e.key };

        ghost joined = { λ _ d. d };

        fn key(self) -> u32 {
            self.key
        }

        fn joined(self, other: Dated) -> Dated {
            other
        }
    }

    fn item(key: u32, time: u32) -> Dated {
        Dated { key, time }
    }

    // Keys 1, 3 and 4, then 2, 3 and 5, and three free slots.
    fn lists() -> [Dated; 9] {
        let none = item(0, 0);
        [
            item(1, 7),
            item(3, 8),
            item(4, 7),
            item(2, 7),
            item(3, 9),
            item(5, 7),
            none,
            none,
            none,
        ]
    }

    #[test]
    fn two_lists_are_walked_by_rising_keys(rt: HostRuntime) {
        let all = lists();
        let mut walk = Walk::new(&all[..3], &all[3..6]).map(Meeting::key);
        assert_eq!(rt; walk.next(), Some(1));
        assert_eq!(rt; walk.next(), Some(2));
        assert_eq!(rt; walk.next(), Some(3));
        assert_eq!(rt; walk.next(), Some(4));
        assert_eq!(rt; walk.next(), Some(5));
        assert_eq!(rt; walk.next(), None);
    }

    #[test]
    fn a_table_grows_between_the_steps_of_a_walk(rt: HostRuntime) {
        let mut memory = lists();
        let mut table = Table::resume(&mut memory, 6);
        let second = Span { from: 3, to: 9 }.below(table.len());
        let mut walk = SpanWalk::new(Span { from: 0, to: 3 }, second);
        for key in 1..6 {
            let met = walk.next(table.as_slice());
            assert_eq!(rt; met.map(Meeting::key), Some(key));
            if let Some(met) = met {
                let _ = table.push(met.joined());
            }
        }
        assert_eq!(rt; walk.next(table.as_slice()), None);
        assert_eq!(rt; table.get(6), Some(item(1, 7)));
        assert_eq!(rt; table.get(7), Some(item(2, 7)));
        assert_eq!(rt; table.get(8), Some(item(3, 9)));
    }

    #[test]
    fn a_join_goes_in_as_far_as_there_is_room(rt: HostRuntime) {
        let mut memory = lists();
        let mut table = Table::resume(&mut memory, 6);
        table.append_joined(4, Span { from: 0, to: 3 }, Span { from: 3, to: 9 });
        assert_eq!(rt; table.get(6), Some(item(1, 7)));
        assert_eq!(rt; table.get(7), Some(item(2, 7)));
        assert_eq!(rt; table.get(8), Some(item(3, 9)));
        assert_eq!(rt; table.room(), 0);
    }
}
