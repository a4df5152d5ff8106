// The bytes from the place on: more come behind those held, and the first of them go.
ghost use Rattle.std.specs.Prelude.{◌≡◌, ◌+◌, ◌-◌, ◌≤◌, [], ◌++◌, length, drop};

// A buffer and a count: memory is fixed, and a refused feed leaves every byte of it as it was, also the unused ones, of which the view of a library vector of fixed capacity says nothing.
#[derive(Drop)]
pub struct Window {
    buffer: [u8; 4096],
    held: usize,
    ghost full: { length buffer ≡ 4096 },
    ghost few: { held ≤ 4096 },
}

impl Window {
    ghost use Rattle.reader.specs.Held.{bytes};

    pub(crate) fn new() -> Window
        ensures held { result.held ≡ 0 }
        ensures bytes { bytes result ≡ [] }
    {
        Window {
            buffer: [0; 4096],
            held: 0,
        }
    }

    pub(crate) fn held(&self) -> usize
        ensures { result ≡ self.now.held }
    {
        self.held
    }

    pub(crate) fn bytes(&self) -> &[u8]
        ensures { result.now ≡ bytes self.now }
    {
        &self.buffer[..self.held]
    }

    // Copies a block behind the bytes held.
    pub(crate) fn append(&mut self, block: &[u8])
        requires { self.old.held + length block.now ≤ 4096 }
        ensures bytes { bytes self.new ≡ bytes self.old ++ block.now }
        ensures held { self.new.held ≡ self.old.held + length block.now }
    {
        let end = self.held + block.len();
        self.buffer[self.held..end].copy_from_slice(block);
        self.held = end;
    }

    // Lets all but the last n bytes go.
    pub(crate) fn keep(&mut self, n: usize)
        requires { n ≤ self.old.held }
        ensures bytes { bytes self.new ≡ drop (self.old.held - n) (bytes self.old) }
        ensures held { self.new.held ≡ n }
    {
        if n == self.held {
            return;
        }
        self.buffer.copy_within(self.held - n..self.held, 0);
        self.held = n;
    }
}
