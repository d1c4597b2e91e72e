// The requests of a list are attempted, and where one is refused everything is as it was: the machines' words,
// the tree and the owners are copied into spare memory first, and copied back then. An inner crate: its
// functions ask what their callers show.
#![tactic(auto)]

ghost use Rattle.std.specs.Prelude.{◌≡◌, ◌+◌, ◌*◌, ◌≤◌, length};
ghost use Rattle.base.specs.Ranges.{Only};
ghost use Rattle.request_bytes.specs.Requests.{nth_request, MeansAll};
ghost use Rattle.list_undo.specs.Undoing.{SpareFits, UndoneSays};

use list_attempt::Halted;

// Copies one memory into another. A loop, since `copy_from_slice` would have the archive ask for `memmove`.
fn copy<T: Copy>(from: &[T], to: &mut [T])
    requires { length to.old ≡ length from.now }
    ensures { to.new ≡ from.now }
{
    for i in 0..from.len() {
        to[i] = from[i];
    }
}

// Copies the machines' words, the tree and the owners.
fn copy_all(
    zones: &[u64],
    tree: &[u16],
    owners: &[u8],
    to_zones: &mut [u64],
    to_tree: &mut [u16],
    to_owners: &mut [u8],
)
    requires { SpareFits zones.now tree.now owners.now to_zones.old to_tree.old to_owners.old }
    ensures zones { to_zones.new ≡ zones.now }
    ensures tree { to_tree.new ≡ tree.now }
    ensures owners { to_owners.new ≡ owners.now }
{
    copy(zones, to_zones);
    copy(tree, to_tree);
    copy(owners, to_owners);
}

// Attempts the n requests in the bytes from p on, and leaves everything as it was where one is refused. The
// spare memory has what was before.
pub fn attempt_or_undo(
    table: &[u64],
    zones: &mut [u64],
    tree: &mut [u16],
    owners: &mut [u8],
    spare_zones: &mut [u64],
    spare_tree: &mut [u16],
    spare_owners: &mut [u8],
    number: u64,
    bytes: &[u8],
    p: usize,
    n: usize,
    answers: &mut [u64],
    at: usize,
) -> Result<(), Halted>
    requires spare { SpareFits zones.old tree.old owners.old spare_zones.old spare_tree.old spare_owners.old }
    requires members { MeansAll bytes.now p n }
    requires room { at + 2 * n ≤ length answers.old }
    ensures tree { spare_tree.new ≡ tree.old }
    ensures owners { spare_owners.new ≡ owners.old }
    ensures says { UndoneSays table.now zones.old tree.old owners.old number (nth_request bytes.now p) n
        zones.new tree.new owners.new answers.new at result }
    ensures told { Only answers.old at (at + 2 * n) answers.new }
{
    copy_all(zones, tree, owners, spare_zones, spare_tree, spare_owners);
    match list_attempt::attempt_all(table, zones, tree, owners, number, bytes, p, n, answers, at) {
        Ok(()) => Ok(()),
        Err(halted) => {
            copy_all(spare_zones, spare_tree, spare_owners, zones, tree, owners);
            Err(halted)
        }
    }
}
