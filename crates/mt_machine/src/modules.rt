//! The modules under a script.

ghost use Rattle.std.specs.Prelude.{◌≡◌};
ghost use Rattle.mt_conf.specs.Accepted.{IsAcceptedConfig};
ghost use Rattle.mt_machine.specs.Machine.{at_start};

use mt_conf::Config;
use mt_fls::Fls;
use mt_ram::Ram;

/// RamTst and FlsTst.
#[derive(Drop)]
pub struct Modules {
    pub ram: Ram,
    pub fls: Fls,
}

impl Modules {
    /// Both modules in UNINIT.
    pub fn new(config: Config) -> Modules
        requires { IsAcceptedConfig config }
        ensures { result ≡ at_start config }
    {
        Modules {
            ram: Ram::new(config.ram_tst, config.shape),
            fls: Fls::new(config.fls_tst, config.shape),
        }
    }
}
