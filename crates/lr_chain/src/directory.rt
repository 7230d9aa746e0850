// A directory that is made, or that was there.
ghost use Rattle.std.specs.Prelude.{OnOk, IfErr};
ghost use Rattle.lr_host.specs.declared.entry.Entry.TheVariants as entry;
ghost use Rattle.lr_host.specs.Told.{Left, Can, Onward};
ghost use Rattle.lr_chain.specs.Directory.{DirMade, DirStopped, DirCause};

use lr_host::{Host, shows_dir};
use lr_rules::Path;

/// Why a directory wasn't made.
#[derive(Clone, Copy)]
pub enum DirStop {
    /// The call that makes it failed.
    Make,
    /// Something has the path, and the look at it failed.
    Look,
    /// Another kind of thing has the path.
    NotDir,
}

/// Makes a directory, with these permission bits where there are any. Where something has the path, that has to be a directory,
/// by a look that follows links. It takes no memory.
pub fn make_directory<H: Host>(host: &mut H, dir: &Path, mode: Option<u32>) -> Result<(), DirStop>
    requires { Can (H.told host.old) (entry.MakesDir dir.now mode) }
    ensures told { OnOk result (Left (DirMade dir.now mode) (H.told host.old) (H.told host.new)) }
    ensures refused { IfErr result (λ why. Left (DirStopped dir.now mode why) (H.told host.old) (H.told host.new)) }
    ensures cause { IfErr result (λ why. DirCause why (H.counts host.old) (H.counts host.new)) }
    ensures counts { Onward (H.counts host.old) (H.counts host.new) }
{
    let Ok(made) = host.make_dir(dir, mode) else {
        return Err(DirStop::Make);
    };
    if made {
        return Ok(());
    }
    let Ok(look) = host.look(dir, true) else {
        return Err(DirStop::Look);
    };
    // What had the path when the make found it named is still there, so a look that saw nothing doesn't come.
    if shows_dir(look) {
        Ok(())
    } else {
        Err(DirStop::NotDir)
    }
}
