// What stands above a class.
ghost use Rattle.std.specs.Prelude.{◌≡◌, ◌||◌, nat_eq};
ghost use Rattle.dv_defs.specs.Order.{implements as is_implementing};

use dv_defs::Image;

/// Whether a class is the other or under it by superclasses and superinterfaces.
pub fn implements(image: &Image, class: usize, above: usize) -> bool
    ensures { result ≡ is_implementing image.now class above }
{
    class == above || is_ancestor(image, class, above)
}

/// Whether linking found another class above a class.
fn is_ancestor(image: &Image, class: usize, above: usize) -> bool
    ensures { (nat_eq class above || result) ≡ is_implementing image.now class above }
{
    match image.index.ancestors.items().get(class) {
        Some(ancestors) => match ancestors.items().get(above) {
            Some(stands) => *stands,
            None => false,
        },
        None => false,
    }
}
