//! The paths that are found from a path without the table.

ghost use Rattle.std.specs.Prelude.{◌≡◌};
ghost use Rattle.stack_rebuild.specs.private.Links.{link_to, linked_to, no_link, no_links, with_link};

/// A path that goes on from another, or none.
#[derive(Clone, Copy)]
pub(crate) struct Link {
    /// The number of the path, or 0 for none.
    pub(crate) number: u32,
    /// The id of its last function.
    pub(crate) func: u32,
}

impl Link {
    /// No path.
    fn none() -> Link
        ensures { result ≡ no_link }
    {
        Link { number: 0, func: 0 }
    }

    /// The number of the path, if its last function is this one.
    #[inline(always)]
    fn to(&self, func: u32) -> Option<u32>
        ensures { result ≡ link_to self.now func }
    {
        if self.number == 0 {
            return None;
        }
        if self.func == func {
            Some(self.number)
        } else {
            None
        }
    }
}

/// The first and the two latest of the paths that go on from a path.
#[derive(Clone, Copy)]
pub(crate) struct Links {
    /// The first, or none if no path goes on.
    pub(crate) first: Link,
    /// The latest, or none if at most one path goes on.
    pub(crate) latest: Link,
    /// The latest before that, or none if at most two paths go on.
    pub(crate) before: Link,
}

impl Links {
    /// No path goes on.
    pub(crate) fn none() -> Links
        ensures { result ≡ no_links }
    {
        Links {
            first: Link::none(),
            latest: Link::none(),
            before: Link::none(),
        }
    }

    /// The number of the path that goes on with a function, if it is linked.
    #[inline(always)]
    pub(crate) fn to(&self, func: u32) -> Option<u32>
        ensures { result ≡ linked_to self.now func }
    {
        match self.first.to(func) {
            Some(number) => Some(number),
            None => match self.latest.to(func) {
                Some(number) => Some(number),
                None => self.before.to(func),
            },
        }
    }

    /// One more path goes on. The first stays first, since most calls go the same way. The new path
    /// takes the place of the latest, which takes that of the one before.
    pub(crate) fn with(self, link: Link) -> Links
        ensures { result ≡ with_link link self }
    {
        if self.first.number == 0 {
            return Links {
                first: link,
                latest: self.latest,
                before: self.before,
            };
        }
        Links {
            first: self.first,
            latest: link,
            before: self.latest,
        }
    }
}
