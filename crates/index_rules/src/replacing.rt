//! Keys with other codes in the place of one of their codes.
ghost use Rattle.std.specs.Prelude.{◌≡◌, ◌≤◌, ◌+◌, ◌-◌, length, take, drop};
ghost use Rattle.change_laws.specs.Lifts.{replaced as replaced_at};

use linear_combos::Key;

// The first codes of a key.
fn first_codes(key: &Key, count: u32) -> Key
    requires { count ≤ length key.now }
    ensures { result ≡ take count key.now }
{
    if count == 0 {
        return Key::none();
    }
    if count == key.rank() {
        return *key;
    }
    if count == 1 {
        return Key::one(*key.code(1));
    }
    Key::two(*key.code(1), *key.code(2))
}

// The codes of a key after the first ones.
fn codes_after(key: &Key, count: u32) -> Key
    requires { count ≤ length key.now }
    ensures { result ≡ drop count key.now }
{
    if count == 0 {
        return *key;
    }
    let rank = key.rank();
    if count == rank {
        return Key::none();
    }
    if count + 1 == rank {
        return Key::one(*key.code(rank));
    }
    Key::two(*key.code(2), *key.code(3))
}

/// The key with those of another one in the place of the code of a component, counted from 1. It
/// takes no memory.
pub fn replaced(key: &Key, component: u32, codes: &Key) -> Key
    requires first { 1 ≤ component }
    requires last { component ≤ length key.now }
    requires most { length key.now + length codes.now ≤ 4 }
    ensures { result ≡ replaced_at (component - 1) codes.now key.now }
{
    let front = first_codes(key, component - 1);
    let back = codes_after(key, component);
    front.followed_by(codes).followed_by(&back)
}
