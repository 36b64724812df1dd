// Three of something, one for each direction that comes in through a face: n, n + t and n - t.
ghost use Rattle.streaming.specs.Three.{Maps};

#[derive(Clone, Copy)]
pub struct Three<T> {
    pub n: T,
    pub np: T,
    pub nm: T,
}

impl<T: Copy> Three<T> {
    #[inline(always)]
    pub fn map<U, F: Fn(T) -> U>(self, of: F) -> Three<U>
        requires { F.IsAlwaysCallable of }
        ensures { Maps (F.post of) self result }
    {
        Three {
            n: of(self.n),
            np: of(self.np),
            nm: of(self.nm),
        }
    }
}
