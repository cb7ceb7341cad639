// Parts of lent slices; an end that is not there gives nothing.
ghost use Rattle.std.specs.Prelude.{◌≡◌};
ghost use Rattle.program_lines.specs.Parts.{front_of, rest_of};

pub fn front<T>(s: &[T], n: usize) -> &[T]
    ensures { result.now ≡ front_of n s.now }
{
    s.get(..n).unwrap_or(&[])
}

pub fn after(s: &[u8], at: usize) -> &[u8]
    ensures { result.now ≡ rest_of at s.now }
{
    s.get(at..).unwrap_or(&[])
}

pub fn between(s: &[u8], at: usize, len: usize) -> &[u8]
    ensures { result.now ≡ front_of len (rest_of at s.now) }
{
    front(after(s, at), len)
}
