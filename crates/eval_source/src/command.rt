// What the arguments ask for.
ghost use Rattle.std.specs.Prelude.{◌<◌, ◌^◌, length};

/// What the arguments ask for: the run of a call, by its text, with so much fuel.
#[derive(Clone, Copy)]
pub struct Command<'a> {
    pub call: &'a str,
    pub fuel: u64,
    pub ghost short: { length call.now < 2 ^ 32 },
}
