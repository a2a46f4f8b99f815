// Over what the wires of a test are served.

/// A site in memory or on a disk, in a hub in which posts wait for one another or don't.
#[derive(Clone, Copy)]
pub(crate) struct Place {
    pub is_on_disk: bool,
    pub is_grouped: bool,
    pub old_clients: bool,
}

impl Place {
    pub const MEMORY: Place = Place {
        is_on_disk: false,
        is_grouped: false,
        old_clients: false,
    };

    pub const DISK: Place = Place {
        is_on_disk: true,
        is_grouped: false,
        old_clients: false,
    };

    /// The same, where posts wait for one another.
    pub fn grouped(self) -> Place {
        Place {
            is_grouped: true,
            ..self
        }
    }

    /// The same, where clients are taken for old ones.
    pub fn of_old_clients(self) -> Place {
        Place {
            old_clients: true,
            ..self
        }
    }

    /// What is printed of it behind the name of a test.
    pub fn words(self) -> &'static str {
        if self.old_clients {
            return ", as old ones";
        }
        match (self.is_on_disk, self.is_grouped) {
            (false, false) => "",
            (true, false) => ", on a disk",
            (false, true) => ", in groups",
            (true, true) => ", on a disk, in groups",
        }
    }
}
