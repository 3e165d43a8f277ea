// What the lines of a session begin with.
ghost use Rattle.std.specs.Prelude.{◌≡◌, [], ◌∷◌};

use transport::Key;

// Its SA and its number at that SA.
pub fn session_numbers(key: Key) -> [u64; 2]
    ensures { result ≡ key.sa.0 ∷ key.session.0 ∷ [] }
{
    [u64::from(key.sa.0), u64::from(key.session.0)]
}
