//! The laws of groups, in the words of their users, and the numbers that this crate's definitions stand for.

ghost use Rattle.std.specs.Prelude.{◌≡◌, ◌<◌, ◌≤◌, ◌↔◌, ℕ, List, length, slice_get, Some};
ghost use Rattle.scc_base.specs.Groups.{members_in, place_in, root_in, size_in};
ghost use Rattle.scc_base.specs.Communicators.{AreRules, IsGrouped, key_of, rule_of};
ghost use Rattle.scc_base.specs.declared.communicators.CommRule.{CommRule};
ghost use Rattle.scc_base.specs.declared.layouts.Layout.TheVariants.{LineFlags, BitFlags};
ghost use Rattle.scc_base.specs.Heads.{most_message, most_post};
ghost use Rattle.scc_base.specs.Layouts.{chunk_size};
ghost use Rattle.scc_base.specs.Numbers.{number_count, register_number};
ghost use Rattle.scc_base.specs.Places.{first_heap};

/// The places of a group are its own numbers from 0 on, in rank order, and the list of members has each
/// member at its place.
pub fn places_law()
    ensures below { (nue : ℕ) (key : ℕ → ℕ) (r : ℕ) → r < nue → place_in key r < size_in nue key r }
    ensures ordered { (key : ℕ → ℕ) (r q : ℕ) → key r ≡ key q → r < q → place_in key r < place_in key q }
    ensures once { (key : ℕ → ℕ) (r q : ℕ) → key r ≡ key q → place_in key r ≡ place_in key q → r ≡ q }
    ensures filled { (nue : ℕ) (key : ℕ → ℕ) (r i : ℕ) → i < size_in nue key r
        → (x : ℕ) × (x < nue) × (key x ≡ key r) × (place_in key x ≡ i) }
    ensures counted { (nue : ℕ) (key : ℕ → ℕ) (r : ℕ) → length (members_in nue key r) ≡ size_in nue key r }
    ensures listed { (nue : ℕ) (key : ℕ → ℕ) (r x : ℕ) → key x ≡ key r → x < nue
        → slice_get (members_in nue key r) (place_in key x) ≡ Some x }
{}

/// A group has one root: its member at place 0, and no rank of the group is below it.
pub fn root_law()
    ensures grouped { (key : ℕ → ℕ) (r : ℕ) → key (root_in key r) ≡ key r }
    ensures first { (key : ℕ → ℕ) (r : ℕ) → place_in key (root_in key r) ≡ 0 }
    ensures lowest { (key : ℕ → ℕ) (r : ℕ) → root_in key r ≤ r }
    ensures once { (key : ℕ → ℕ) (r q : ℕ) → (root_in key r ≡ root_in key q) ↔ (key r ≡ key q) }
{}

/// Two ranks are in one group of a communicator as its rule says: all ranks in the world; and under a split
/// those that are in one group of the parent, at places with one remainder, or one quotient, by k.
pub fn groups_law()
    ensures law { (comms : List CommRule) → AreRules comms → (comm : ℕ) → comm < 16 → (r q : ℕ) → r < 48 → q < 48
        → (key_of comms comm r ≡ key_of comms comm q) ↔ IsGrouped (rule_of comms comm) (key_of comms) r q }
{}

/// The numbers of the chip's profile: bytes of the longest message, of the longest post and of a chunk in each layout, the
/// first heap line, and the words and registers of the chip.
pub fn numbers_law()
    ensures message { most_message ≡ 65536 }
    ensures post { most_post ≡ 3584 }
    ensures line_chunk { chunk_size LineFlags ≡ 3584 }
    ensures bit_chunk { chunk_size BitFlags ≡ 6624 }
    ensures heap { first_heap ≡ 225 }
    ensures words { number_count ≡ 49200 }
    ensures register { register_number 47 ≡ 49199 }
{}
