//! The forks of an overlay, and the trail of a key through them.
ghost use Rattle.std.specs.Prelude.{◌≡◌, ◌<◌, ◌≤◌, [], ◌∷◌, ◌++◌, length, vec_capacity};
ghost use Rattle.key_index.specs.Forks.{AreForks, trail, link_of, is_of, led, new_fork};

/// How many ways lead on from a fork: one for each value of two bits of a key.
const WAYS: u64 = 4;

/// A key with its item, and the forks that each way leads to. The link 0 leads nowhere.
#[derive(Drop)]
pub(crate) struct Fork<T> {
    pub(crate) key: u64,
    pub(crate) links: [u32; 4],
    pub(crate) item: T,
    pub(crate) relation: u8,
}

/// Where the trail of a key ends: at its own fork, or past another one on one of its ways.
#[derive(Clone, Copy)]
pub(crate) enum End {
    At(usize),
    Past(usize, usize),
    Lost,
}

impl<T> Fork<T> {
    /// A fork that leads nowhere.
    pub(crate) fn new(relation: u8, key: u64, item: T) -> Fork<T>
        ensures { result ≡ new_fork relation key item }
    {
        Fork {
            key,
            links: [0; 4],
            item,
            relation,
        }
    }

    /// Leads on to a fork by a way.
    pub(crate) fn lead(&mut self, way: usize, to: u32)
        requires { way < 4 }
        ensures led { self.new ≡ led self.old way to }
        ensures ways { length self.old.links ≡ 4 }
    {
        self.links[way] = to;
    }

    // Whether the key of the relation is its own.
    fn is_of(&self, relation: u8, key: u64) -> bool
        ensures { result ≡ is_of relation key self.now }
    {
        relation == self.relation && key == self.key
    }

    // The fork that a way leads to.
    fn link(&self, way: usize) -> u32
        requires { way < 4 }
        ensures { result ≡ link_of self.now way }
    {
        self.links[way]
    }
}

/// Adds a fork, for which there is room.
pub(crate) fn add<T: Drop>(forks: &mut Vec<Fork<T>>, fork: Fork<T>)
    requires { length forks.old.items < vec_capacity forks.old }
    ensures items { forks.new.items ≡ forks.old.items ++ fork ∷ [] }
    ensures capacity { vec_capacity forks.old ≤ vec_capacity forks.new }
{
    let push: Result<_, _> = forks.push(fork);
    push.unwrap();
}

/// The end of the trail of a key.
pub(crate) fn end_of<T>(forks: &[Fork<T>], relation: u8, key: u64) -> End
    requires { AreForks forks.now }
    ensures { result ≡ trail forks.now relation key }
{
    let mut at = 0;
    let mut rest = key;
    let mut fuel = forks.len();
    while fuel > 0 {
        let fork = &forks[at];
        if fork.is_of(relation, key) {
            return End::At(at);
        }
        let way = (rest % WAYS) as usize;
        let to = fork.link(way);
        if to == 0 {
            return End::Past(at, way);
        }
        at = to as usize;
        rest /= WAYS;
        fuel -= 1;
    }
    End::Lost
}
