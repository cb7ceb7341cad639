// A buffer in fixed memory.
ghost use Rattle.std.specs.Prelude.{◌≡◌, ◌+◌, ◌≤◌, ◌<◌, [], ◌∷◌, ◌++◌, take, length};

// As many elements as its length says, at the front of an array.
#[derive(Drop)]
pub struct Buffer<T: Copy, const N: usize> {
    all: [T; N],
    length: usize,
    ghost inside: { length ≤ N },
}

impl<T: Copy, const N: usize> Buffer<T, N> {
    // A buffer of no element; what it has room for is x at first.
    pub fn new(x: T) -> Buffer<T, N>
        ensures { result.length ≡ 0 }
    {
        Buffer {
            all: [x; N],
            length: 0,
        }
    }

    pub fn as_slice(&self) -> &[T]
        ensures { result.now ≡ take self.now.length self.now.all }
    {
        &self.all[..self.length]
    }

    pub fn as_mut_slice(&mut self) -> &mut [T]
        ensures { length result.now ≡ self.old.length }
    {
        let n = self.length;
        let all = self.all.as_mut_slice();
        &mut all[..n]
    }

    // How many more there is room for.
    pub fn room(&self) -> usize
        ensures { self.now.length + result ≡ N }
    {
        N - self.length
    }

    // n elements more, behind the others, which are lent to be written.
    pub fn more(&mut self, n: usize) -> &mut [T]
        requires { self.old.length + n ≤ N }
        ensures { length result.now ≡ n }
    {
        let from = self.length;
        self.length = from + n;
        let all = self.all.as_mut_slice();
        &mut all[from..from + n]
    }

    // n elements, which are lent to be written.
    pub fn only(&mut self, n: usize) -> &mut [T]
        requires { n ≤ N }
        ensures { length result.now ≡ n }
    {
        self.length = 0;
        self.more(n)
    }

    // One element more, behind the others.
    pub fn push(&mut self, x: T)
        requires { self.old.length < N }
        ensures length { self.new.length ≡ self.old.length + 1 }
        ensures behind { take self.new.length self.new.all ≡ take self.old.length self.old.all ++ (x ∷ []) }
    {
        let at = self.length;
        let all = self.all.as_mut_slice();
        all[at] = x;
        self.length = at + 1;
    }

    pub fn clear(&mut self)
        ensures { self.new.length ≡ 0 }
    {
        self.length = 0;
    }
}
