// Labels that stand twice, and labels that aren't there.
ghost use Rattle.std.specs.Prelude.{◌≡◌, ◌<◌, length};
ghost use Rattle.std.specs.List.{list_all};
ghost use Rattle.dv_asm.specs.Refusals.{is_place, is_second, label_twice, label_twice_at, has_label, has_labels, no_label, no_label_at, catch_has_labels, no_label_of_catch_at};

use crate::catches::catch_at;
use crate::lines::{earlier, first_line, when};
use crate::places::Places;
use dv_defs::Text;
use dv_draft::{Catch, What};

/// Whether this is the place.
pub fn is_place(k: usize, place: Option<usize>) -> bool
    ensures { result ≡ is_place k place }
{
    match place {
        Some(j) => j == k,
        None => false,
    }
}

impl Places<'_> {
    /// Whether what stands at a place is a label whose name an earlier one has.
    fn is_second(&self, k: usize, what: &What) -> bool
        ensures { result ≡ is_second self.now k what.now }
    {
        match what {
            What::Label(name) => !is_place(k, self.find_label(name)),
            _ => false,
        }
    }

    fn label_twice_at(&self, k: usize) -> Option<u32>
        requires { k < length self.now }
        ensures { result ≡ label_twice_at self.now k }
    {
        let item = self.item(k);
        when(self.is_second(k, &item.what), item.line)
    }

    /// The first line of a label whose name an earlier one has.
    pub fn label_twice(&self) -> Option<u32>
        ensures { result ≡ label_twice self.now }
    {
        first_line(self.count(), |k| self.label_twice_at(k))
    }

    fn has_label(&self, name: &Text) -> bool
        ensures { result ≡ has_label self.now name.now }
    {
        self.find_label(name).is_some()
    }

    fn have_labels(&self, names: &[Text]) -> bool
        ensures { result ≡ list_all (has_label self.now) names.now }
    {
        names.iter().all(|name| self.has_label(name))
    }

    /// Whether each label that is named there is an item.
    fn has_labels(&self, what: &What) -> bool
        ensures { result ≡ has_labels self.now what.now }
    {
        match what {
            What::Label(_) | What::Data(_, _) => true,
            What::Op(op) => match &op.label {
                Some(name) => self.has_label(name),
                None => true,
            },
            What::Packed(_, targets) | What::Sparse(_, targets) => {
                self.have_labels(targets.items())
            }
        }
    }

    fn no_label_at(&self, k: usize) -> Option<u32>
        requires { k < length self.now }
        ensures { result ≡ no_label_at self.now k }
    {
        let item = self.item(k);
        when(!self.has_labels(&item.what), item.line)
    }

    fn catch_has_labels(&self, catch: &Catch) -> bool
        ensures { result ≡ catch_has_labels self.now catch.now }
    {
        self.has_label(&catch.from) && self.has_label(&catch.to) && self.has_label(&catch.at)
    }

    fn no_label_of_catch_at(&self, catches: &[Catch], k: usize) -> Option<u32>
        requires { k < length catches.now }
        ensures { result ≡ no_label_of_catch_at self.now catches.now k }
    {
        let catch = catch_at(catches, k);
        when(!self.catch_has_labels(catch), catch.line)
    }

    /// The first line that names a missing label.
    pub fn no_label(&self, catches: &[Catch]) -> Option<u32>
        ensures { result ≡ no_label self.now catches.now }
    {
        earlier(
            first_line(self.count(), |k| self.no_label_at(k)),
            first_line(catches.len(), |k| self.no_label_of_catch_at(catches, k)),
        )
    }
}
