// Who owns which frame: beside the tree one byte a frame, 255 for nobody and 0 to 63 for a client. An
// inner crate: its functions ask what their callers show.
#![tactic(auto)]

ghost use Rattle.std.specs.Prelude.{◌≡◌, ◌*◌, ◌+◌, ◌≤◌, ◌<◌, length, get_or};
ghost use Rattle.base.specs.Says.{Says};
ghost use Rattle.base.specs.Search.{Stops};
ghost use Rattle.owners.specs.States.{Matched, state, State.Owned, HasOwner, Unowned};
ghost use Rattle.owners.specs.Writes.{Filled, Assigned};

// Writes the byte c for the frames from a up to b.
pub fn fill(owners: &mut [u8], a: usize, b: usize, c: u8)
    requires { (a ≤ b) × (b ≤ length owners.old) }
    ensures { Filled owners.old a b c owners.new }
{
    owners[a..b].fill(c);
}

// Gives frame k the bit v and the byte c.
pub fn assign_one(tree: &mut [u16], owners: &mut [u8], k: usize, v: u16, c: u8)
    requires { Matched tree.old owners.old × (k ≤ 15 * length tree.old) × (v < 2) }
    ensures { Assigned tree.old owners.old k (k + 1) v c tree.new owners.new }
{
    bitmap_tree::change_one(tree, k, v);
    owners[k] = c;
}

// Gives each frame from a up to b the bit v and the byte c.
pub fn assign(tree: &mut [u16], owners: &mut [u8], a: usize, b: usize, v: u16, c: u8)
    requires { Matched tree.old owners.old × (a < b) × (b ≤ 15 * length tree.old + 1) × (v < 2) }
    ensures { Assigned tree.old owners.old a b v c tree.new owners.new }
{
    bitmap_range::change(tree, a, b, v);
    fill(owners, a, b, c);
}

// The first frame from a up to b whose byte is not c, or b.
pub fn byte_until(owners: &[u8], a: usize, b: usize, c: u8) -> usize
    requires { (a ≤ b) × (b ≤ length owners.now) }
    ensures { Stops (λ k. get_or owners.now k 255 ≡ c) a b result }
{
    match owners[a..b].iter().position(|x| *x != c) {
        Some(i) => a + i,
        None => b,
    }
}

// The first frame from a up to b that is not owned by the client c, or b.
pub fn owned_until(tree: &[u16], owners: &[u8], a: usize, b: usize, c: u8) -> usize
    requires { Matched tree.now owners.now × (a ≤ b) × (b ≤ 15 * length tree.now + 1) × (c < 64) }
    ensures { Stops (λ k. state tree.now owners.now k ≡ Owned c) a b result }
{
    let named = byte_until(owners, a, b, c);
    bitmap_search::taken_until(tree, a, named)
}

// Whether some client owns frame k.
pub fn has_owner(tree: &[u16], owners: &[u8], k: usize) -> bool
    requires { Matched tree.now owners.now × (k ≤ 15 * length tree.now) }
    ensures { Says result (HasOwner tree.now owners.now k) }
{
    owners[k] < 64 && bitmap_tree::read(tree, tree.len() + k) == 0
}

// The first frame from a up to b that some client owns, or b.
pub fn unowned_until(tree: &[u16], owners: &[u8], a: usize, b: usize) -> usize
    requires { Matched tree.now owners.now × (a ≤ b) × (b ≤ 15 * length tree.now + 1) }
    ensures { Stops (Unowned tree.now owners.now) a b result }
{
    for k in a..b {
        if has_owner(tree, owners, k) {
            return k;
        }
    }
    b
}
