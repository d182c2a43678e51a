//! The names of things on the chip and in a run, and setups: values from the tables and the worked runs.

use scc_base::{
    Buf, Call, CommRule, CoreId, Event, FlagAt, Head, Kind, Layout, Line, Place, PostHead, Rank,
    Setup, Signal, Spot, Turn, own_cores,
};

const NUMBERS: &[(u8, bool)] = &[(0, true), (47, true), (48, false), (255, false)];

#[test]
fn numbers_end_at_48(rt: HostRuntime) {
    for &(number, fits) in NUMBERS {
        assert!(rt; Rank::new(number).is_some() == fits && CoreId::new(number).is_some() == fits);
    }
    assert!(rt; Rank::of(7).number() == 7 && CoreId::of(47).number() == 47);
}

const HEADS: &[(Kind, u8, u32, bool)] = &[
    (Kind::Plain, 0, 0, true),
    (Kind::Plain, 0, 65_536, true),
    (Kind::Plain, 0, 65_537, false),
    (Kind::Plain, 1, 4, false),
    (Kind::Bcast, 15, 4, true),
    (Kind::AllDown, 16, 4, false),
];

#[test]
fn heads_have_bounds(rt: HostRuntime) {
    for &(kind, comm, len, fits) in HEADS {
        assert!(rt; Head::new(kind, comm, len).is_some() == fits);
    }
    assert!(rt; PostHead::plain(3_584).is_some() && PostHead::plain(3_585).is_none());
}

// Whether there is a head of the world with these parts, and whether it becomes that of a post.
fn is_posted(head: Option<Head>, kind: Kind, len: u32, posted: bool) -> bool {
    let Some(head) = head else {
        return false;
    };
    if head.kind() != kind || head.comm() != 0 || head.len() != len {
        return false;
    }
    match PostHead::new(head) {
        Some(post) => posted && post.len() == len && post.head() == head,
        None => !posted,
    }
}

#[test]
fn heads_become_heads_of_posts(rt: HostRuntime) {
    assert!(rt; is_posted(Head::plain(3_584), Kind::Plain, 3_584, true));
    assert!(rt; is_posted(Head::plain(3_585), Kind::Plain, 3_585, false));
    assert!(rt; is_posted(Head::new(Kind::Reduce, 0, 8), Kind::Reduce, 8, false));
}

const KINDS: &[(u8, Kind)] = &[
    (0, Kind::Plain),
    (1, Kind::Bcast),
    (2, Kind::Reduce),
    (3, Kind::AllUp),
    (4, Kind::AllDown),
];

#[test]
fn kinds_have_their_numbers(rt: HostRuntime) {
    for &(number, kind) in KINDS {
        assert!(rt; kind.number() == number && Kind::from_number(number) == Some(kind));
    }
    assert!(rt; Kind::from_number(5).is_none());
}

// The line of a flag, its word in the line, and its bit of the word if it is one.
type FlagRow = (u8, u8, Option<u8>);

fn stands_at(flag: FlagAt, row: FlagRow) -> bool {
    flag.line_number() == row.0 && flag.word() == row.1 && flag.bit_number() == row.2
}

// Whether a layout has the flags `sent` and `ready` of ranks in these lines, words and bits.
fn has_flags_of_ranks(layout: Layout, rows: &[(u8, FlagRow, FlagRow)]) -> bool {
    for &(rank, sent, ready) in rows {
        let Some(rank) = Rank::new(rank) else {
            return false;
        };
        if !stands_at(layout.signal(Signal::Sent, rank), sent)
            || !stands_at(layout.signal(Signal::Ready, rank), ready)
        {
            return false;
        }
    }
    true
}

// Whether a layout has the flags `gather` and `release` of communicators in these lines and words.
fn has_flags_of_groups(layout: Layout, rows: &[(u8, u8, u8, u8)]) -> bool {
    for &(comm, gather, release, word) in rows {
        if comm >= 16
            || !stands_at(layout.gather(comm), (gather, word, None))
            || !stands_at(layout.release(comm), (release, word, None))
        {
            return false;
        }
    }
    true
}

const LINES_OF_RANKS: &[(u8, FlagRow, FlagRow)] = &[
    (0, (1, 0, None), (49, 0, None)),
    (1, (2, 0, None), (50, 0, None)),
    (47, (48, 0, None), (96, 0, None)),
];

const LINES_OF_GROUPS: &[(u8, u8, u8, u8)] = &[
    (0, 97, 105, 0),
    (7, 104, 112, 0),
    (8, 97, 105, 1),
    (15, 104, 112, 1),
];

#[test]
fn line_flags_stand_in_lines_of_their_own(rt: HostRuntime) {
    let layout = Layout::lines();
    assert!(rt; !layout.is_bits());
    assert!(rt; layout.chunk_bytes() == 3_584 && layout.first_chunk_line() == 113);
    assert!(rt; has_flags_of_ranks(layout, LINES_OF_RANKS));
    assert!(rt; has_flags_of_groups(layout, LINES_OF_GROUPS));
}

const BITS_OF_RANKS: &[(u8, FlagRow, FlagRow)] = &[
    (0, (1, 0, Some(0)), (1, 1, Some(0))),
    (1, (1, 0, Some(1)), (1, 1, Some(1))),
    (47, (1, 0, Some(47)), (1, 1, Some(47))),
];

const BITS_OF_GROUPS: &[(u8, u8, u8, u8)] = &[
    (0, 2, 10, 0),
    (7, 9, 17, 0),
    (8, 2, 10, 1),
    (15, 9, 17, 1),
];

#[test]
fn bit_flags_share_line_1(rt: HostRuntime) {
    let layout = Layout::bits();
    assert!(rt; layout.is_bits());
    assert!(rt; layout.chunk_bytes() == 6_624 && layout.first_chunk_line() == 18);
    assert!(rt; has_flags_of_ranks(layout, BITS_OF_RANKS));
    assert!(rt; has_flags_of_groups(layout, BITS_OF_GROUPS));
}

fn is_place(place: Place, core: u8, line: u8, word: u8) -> bool {
    place.core().number() == core && place.line() == line && place.word() == word
}

#[test]
fn places_name_words(rt: HostRuntime) {
    let core = CoreId::of(3);
    let line = Line::new(core, 97);
    let word = line.word(2);
    assert!(rt; word == Place::new(core, 97, 2) && is_place(word, 3, 97, 2));
    assert!(rt; word.line_at().is(line) && !Line::new(CoreId::of(4), 97).is(line));
    assert!(rt; line.core().number() == 3 && line.line() == 97);
    assert!(rt; FlagAt::new(97, 1, None).place(core) == Place::new(core, 97, 1));
}

const BUFFERS: &[(u8, u8, bool)] = &[
    (225, 31, true),
    (230, 4, true),
    (255, 1, true),
    (224, 1, false),
    (255, 2, false),
    (225, 0, false),
    (0, 255, false),
];

// Whether there is a buffer of these lines if they fit, and none if they do not.
fn is_buffer(first: u8, lines: u8, fits: bool) -> bool {
    match Buf::new(first, lines) {
        Some(buf) => fits && buf.first() == first && buf.lines() == lines,
        None => !fits,
    }
}

#[test]
fn buffers_lie_in_the_heap(rt: HostRuntime) {
    for &(first, lines, fits) in BUFFERS {
        assert!(rt; is_buffer(first, lines, fits));
    }
}

#[test]
fn events_have_their_values(rt: HostRuntime) {
    let core = CoreId::of(1);
    let place = Place::new(core, 49, 0);
    assert!(rt; Event::load(place, 1) != Event::store(place, 1));
    assert!(rt; Event::take(core, true).value == 1 && Event::take(core, false).value == 0);
    assert!(rt; Event::free(core).place == Place::register(core));
}

#[test]
fn spots_are_copied(rt: HostRuntime) {
    let core = CoreId::of(5);
    let place = Place::new(core, 49, 0);
    let spot = Spot::Flag { place, bit: 0 };
    assert!(rt; spot.copy() == spot);
    let turn = Turn::Waiting(Spot::Register { core });
    assert!(rt; turn.copy() == turn);
}

#[test]
fn calls_are_copied(rt: HostRuntime) {
    let head = Head::plain(4).expect(&rt, "four bytes");
    let other = Rank::of(1);
    let call = Call::Send { to: other, head };
    assert!(rt; call.copy() == call && call != Call::Recv { from: other, head });
}

fn rules_of(first: CommRule, second: CommRule) -> [CommRule; 16] {
    let mut rules = [CommRule::Absent; 16];
    rules[0] = first;
    rules[1] = second;
    rules
}

fn is_setup(nue: u8, layout: Layout, rules: [CommRule; 16]) -> bool {
    Setup::new(nue, layout, own_cores(), rules).is_some()
}

const NUMBERS_OF_RANKS: &[(u8, bool)] = &[(0, false), (1, true), (48, true), (49, false)];

const FIRST_RULES: &[(CommRule, CommRule, bool)] = &[
    (CommRule::Absent, CommRule::Absent, false),
    (CommRule::Mod { parent: 0, k: 1 }, CommRule::Absent, false),
    (CommRule::World, CommRule::World, false),
    (CommRule::World, CommRule::Mod { parent: 0, k: 48 }, true),
    (CommRule::World, CommRule::Mod { parent: 0, k: 49 }, false),
    (CommRule::World, CommRule::Div { parent: 0, k: 0 }, false),
    (CommRule::World, CommRule::Div { parent: 1, k: 2 }, false),
    (CommRule::World, CommRule::Mod { parent: 2, k: 2 }, false),
];

#[test]
fn setups_are_refused(rt: HostRuntime) {
    let mut rules = rules_of(CommRule::World, CommRule::Absent);
    for &(nue, stands) in NUMBERS_OF_RANKS {
        assert!(rt; is_setup(nue, Layout::lines(), rules) == stands);
    }
    for &(first, second, stands) in FIRST_RULES {
        assert!(rt; is_setup(4, Layout::bits(), rules_of(first, second)) == stands);
    }
    rules[3] = CommRule::Mod { parent: 2, k: 2 };
    assert!(rt; !is_setup(4, Layout::lines(), rules));
}

#[test]
fn two_ranks_need_two_cores(rt: HostRuntime) {
    let mut cores = own_cores();
    cores[3] = CoreId::of(1);
    let rules = rules_of(CommRule::World, CommRule::Absent);
    assert!(rt; Setup::new(4, Layout::lines(), cores, rules).is_none());
    assert!(rt; Setup::new(3, Layout::lines(), cores, rules).is_some());
}

// Whether these are the members of the rank's group, in order, and its place and root are theirs.
fn has_members(setup: &Setup, comm: u8, rank: u8, members: &[u8]) -> bool {
    if comm >= 16 || rank >= setup.nue() || rank >= 48 || setup.rule(comm) == CommRule::Absent {
        return false;
    }
    let me = Rank::of(rank);
    let mut place = 0;
    for &number in members {
        if setup.member(comm, me, place) != Rank::new(number) {
            return false;
        }
        place = place.saturating_add(1);
    }
    let at = usize::from(setup.place(comm, me));
    place == setup.group_size(comm, me)
        && setup.member(comm, me, place).is_none()
        && at < members.len()
        && members[at] == rank
        && members[0] == setup.root(comm, me).number()
}

// Eight ranks. Communicator 1 takes the world apart in fours, 9 the fours in even and odd places, and 10 the
// world by the remainders of 3.
fn nested_setup() -> Option<Setup> {
    let mut rules = rules_of(CommRule::World, CommRule::Div { parent: 0, k: 4 });
    rules[9] = CommRule::Mod { parent: 1, k: 2 };
    rules[10] = CommRule::Mod { parent: 0, k: 3 };
    Setup::new(8, Layout::lines(), own_cores(), rules)
}

const MEMBERS: &[(u8, u8, &[u8])] = &[
    (0, 5, &[0, 1, 2, 3, 4, 5, 6, 7]),
    (1, 5, &[4, 5, 6, 7]),
    (9, 0, &[0, 2]),
    (9, 1, &[1, 3]),
    (9, 6, &[4, 6]),
    (10, 4, &[1, 4, 7]),
];

#[test]
fn splits_nest(rt: HostRuntime) {
    let setup = nested_setup().expect(&rt, "a setup");
    let split = setup.rule(9) == CommRule::Mod { parent: 1, k: 2 };
    assert!(rt; split && setup.nue() == 8 && setup.layout() == Layout::lines());
    for &(comm, rank, members) in MEMBERS {
        assert!(rt; has_members(&setup, comm, rank, members));
    }
}

fn sits_on(setup: &Setup, rank: u8, core: u8) -> bool {
    match Rank::new(rank) {
        Some(rank) if rank.number() < setup.nue() => setup.core_of(rank).number() == core,
        _ => false,
    }
}

#[test]
fn ranks_sit_on_their_hosts(rt: HostRuntime) {
    let mut cores = own_cores();
    cores[0] = CoreId::of(47);
    let rules = rules_of(CommRule::World, CommRule::Absent);
    let setup = Setup::new(2, Layout::bits(), cores, rules).expect(&rt, "a setup");
    assert!(rt; setup.nue() == 2 && sits_on(&setup, 0, 47) && sits_on(&setup, 1, 1));
}
