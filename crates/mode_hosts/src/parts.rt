//! The parts of a play on hosts, put together, whatever their types.
ghost use Rattle.std.specs.Prelude.{◌≡◌, Ok, IfOk};

use pf_io::NoMemory;

/// The application, the cull and the draw, the database process, the desks, and the links of a play.
#[derive(Drop)]
pub(crate) struct Parts<A, W, B, K, L> {
    pub(crate) app: A,
    pub(crate) works: W,
    pub(crate) dbase: B,
    pub(crate) desks: K,
    pub(crate) links: L,
}

/// Returns the parts, if there was memory for all of them.
pub(crate) fn all_made<A: Drop, W: Drop, B: Drop, K: Drop, L: Drop>(
    app: Result<A, NoMemory>,
    works: Result<W, NoMemory>,
    dbase: Result<B, NoMemory>,
    desks: Result<K, NoMemory>,
    links: Result<L, NoMemory>,
) -> Result<Parts<A, W, B, K, L>, NoMemory>
    ensures app { IfOk result (λ p. app ≡ Ok p.app) }
    ensures works { IfOk result (λ p. works ≡ Ok p.works) }
    ensures dbase { IfOk result (λ p. dbase ≡ Ok p.dbase) }
    ensures desks { IfOk result (λ p. desks ≡ Ok p.desks) }
    ensures links { IfOk result (λ p. links ≡ Ok p.links) }
{
    Ok(Parts {
        app: app?,
        works: works?,
        dbase: dbase?,
        desks: desks?,
        links: links?,
    })
}
