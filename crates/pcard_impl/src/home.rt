//! Where a file stands: in which crate, and as which module. The prover names an enum by these.

ghost use Rattle.std.specs.Prelude.{IfSome};
ghost use Rattle.pcard_impl.specs.{IsHome};

/// The place of a file in a repository.
#[derive(Clone, Copy, Debug, PartialEq, Eq)]
pub struct Home<'a> {
    /// The name of its crate.
    pub library: &'a str,
    /// The path of the file in the crate's folder `src`, without `.rt`, as `first` or `net/packet`.
    pub module: &'a str,
}

impl<'a> Home<'a> {
    /// Returns the place of the file with this path, `CRATE/src/MODULE.rt` with folders before it or
    /// not, or `None` for another path.
    pub fn of_path(path: &'a str) -> Option<Home<'a>>
        ensures { IfSome result (λ home. IsHome path.now home.library.now home.module.now) }
    {
        let Some((folders, file)) = path.rsplit_once("/src/") else {
            return None;
        };
        let Some(module) = file.strip_suffix(".rt") else {
            return None;
        };
        match folders.rsplit_once('/') {
            Some((_, library)) => Some(Home { library, module }),
            None => Some(Home {
                library: folders,
                module,
            }),
        }
    }

    /// Returns whether the file is the root of its crate, whose types stand in no module.
    pub fn is_root(self) -> bool {
        self.module == "lib" || self.module == "main"
    }
}
