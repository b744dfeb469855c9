use std::marker::Model;

/// Where a statement stands: what leads to it, number by number.
#[derive(Drop)]
pub(crate) struct Path {
    items: Vec<usize>,
}

impl Model for Path {
    ghost use Rattle.std.specs.Prelude.{List, ℕ};

    ghost Value = { List ℕ };

    ghost view = { λ p. p.items.items };
}

impl Path {
    ghost use Rattle.std.specs.Prelude.{◌≡◌};

    pub(crate) fn new(items: Vec<usize>) -> Self
        ensures { result ≡ items.items }
    {
        Path { items }
    }

    pub(crate) fn as_slice(&self) -> &[usize]
        ensures { result.now ≡ self.now }
    {
        self.items.as_slice()
    }
}

/// A statement that gets a line: where it stands, and the byte of the text at which it begins.
#[derive(Drop)]
pub(crate) struct Site {
    pub(crate) path: Path,
    pub(crate) at: u32,
}

#[derive(Drop)]
pub(crate) struct SiteList {
    items: Vec<Site>,
}

impl Model for SiteList {
    ghost use Rattle.std.specs.Prelude.{List};
    ghost use Rattle.kf_lines.specs.declared.site.Site.{Site};

    ghost Value = { List Site };

    ghost view = { λ l. l.items.items };
}

impl SiteList {
    ghost use Rattle.std.specs.Prelude.{◌≡◌};

    pub(crate) fn new(items: Vec<Site>) -> Self
        ensures { result ≡ items.items }
    {
        SiteList { items }
    }

    pub(crate) fn as_slice(&self) -> &[Site]
        ensures { result.now ≡ self.now }
    {
        self.items.as_slice()
    }
}
