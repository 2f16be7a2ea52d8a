//! The configuration of the generated job.

ghost use Rattle.std.specs.Prelude.{◌≡◌, ◌∷◌, [], IfOk};
ghost use Rattle.mt_conf.specs.Accepted.{IsAcceptedConfig};
ghost use Rattle.mt_gen.specs.Config.{kept_block, filled_block, march_set, flash_block, fls_config, job_config};

use mt_blocks::{Block, FlashBlock, FlsConfig, List, ParamSet, RamConfig, Span};
use mt_conf::Config;
use mt_march::march_c_minus;
use mt_plan::{Algorithm, Policy};
use mt_port::Shape;
use mt_word::Width;
use std::alloc::{AllocError, Global};

fn march_set(alloc: Global) -> Result<ParamSet, AllocError>
    ensures { IfOk result (λ set. set ≡ march_set) }
{
    let kept = Block {
        span: Span { first: 0, last: 99 },
        policy: Policy::NonDestructive,
        fill: 0,
    };
    let filled = Block {
        span: Span {
            first: 100,
            last: 199,
        },
        policy: Policy::Destructive,
        fill: 0xa5a5,
    };
    Ok(ParamSet {
        alg: Algorithm::March(march_c_minus()),
        background: 0,
        atomic: 8,
        cells: 32,
        blocks: List::new(vec![in alloc; kept, filled]?),
        retries: 2,
    })
}

fn fls_config(alloc: Global) -> Result<FlsConfig, AllocError>
    ensures { IfOk result (λ config. config ≡ fls_config) }
{
    let block = FlashBlock {
        span: Span { first: 0, last: 31 },
        copy: 32,
    };
    Ok(FlsConfig {
        atomic: 4,
        cells: 8,
        interval_end: 3,
        bgnd: List::new(vec![in alloc; block]?),
        fgnd: List::new(Vec::new(alloc)),
    })
}

/// The configuration of every generated job, in version 1. Of its two blocks of RAM words one keeps its words and one is
/// filled; the words from 200 on and the flash words of the copy are tested by none.
pub fn job_config(alloc: Global) -> Result<Config, AllocError>
    ensures value { IfOk result (λ config. config ≡ job_config) }
    ensures accepted { IfOk result IsAcceptedConfig }
{
    let set = march_set(alloc)?;
    Ok(Config {
        version: 1,
        shape: Shape {
            width: Width::W16,
            ram: 256,
            flash: 64,
        },
        initial: 0,
        ram_tst: RamConfig {
            sets: List::new(vec![in alloc; set]?),
        },
        fls_tst: fls_config(alloc)?,
    })
}
