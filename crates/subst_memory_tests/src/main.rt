//! Makes each call of `tests/data/requests.txt`. `tests/test_memory.py` runs this program, and makes each
//! allocation of the calls fail in turn. The program itself checks nothing.
#![tactic(auto)]

mod bytes;
mod calls;
mod documents;
mod errors;
mod foreign;
mod free_calls;
mod free_errors;
mod in_place;
mod into;
mod lists;
mod long;
mod marks;
mod refusals;
mod runs;
mod texts;

use subst::Error;

fn main(rt: HostRuntime) -> Result<(), Error> {
    texts::calls(&rt)?;
    bytes::calls(&rt)?;
    into::calls(&rt)?;
    long::calls(&rt)?;
    foreign::calls(&rt);
    lists::calls(&rt)?;
    documents::json_calls(&rt)?;
    documents::toml_calls(&rt)?;
    refusals::json_calls(&rt)?;
    refusals::toml_calls(&rt)?;
    refusals::yaml_calls(&rt)?;
    in_place::json_calls(&rt)?;
    in_place::toml_calls(&rt)?;
    in_place::yaml_calls(&rt)?;
    errors::calls(&rt)?;
    runs::calls(&rt)?;
    free_calls::calls(&rt)?;
    Ok(free_errors::calls(&rt)?)
}
