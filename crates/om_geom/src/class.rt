ghost use Rattle.std.specs.Prelude.{◌≡◌, ◌*◌, ◌≤◌, nat_eq, IsTrue, IfSome};
ghost use Rattle.std.specs.List.{list_any};
ghost use Rattle.std.specs.Option.{option_map};
ghost use Rattle.om_geom.specs.Classes.{chunk_classes, class_of, least_class, is_class, data_pages, stride_of, places_of};
ghost use Rattle.om_geom.specs.Numbers.{page_size, largest_class};

use crate::address::PAGE_SIZE;

/// The greatest class, in bytes.
pub const LARGEST_CLASS: u32 = 2048;

/// A size class: 0, or the bytes of each of its places, 16 to 2048.
#[derive(Clone, Copy, Debug, PartialEq, Eq, PartialOrd, Ord, Hash)]
pub struct Class(pub u32);

const CHUNK_CLASSES: [u32; 8] = [16, 32, 64, 128, 256, 512, 1024, LARGEST_CLASS];

/// Whether it is the number of a class.
pub fn is_class(class: u32) -> bool
    ensures { result ≡ is_class class }
{
    class == 0 || is_chunk_class(class)
}

fn is_chunk_class(class: u32) -> bool
    ensures { result ≡ list_any (nat_eq class) chunk_classes }
{
    CHUNK_CLASSES.iter().any(|chunk| class == *chunk)
}

/// The class of a size in bytes, with canaries or without; none for a page block.
pub fn class_of(size: u64, canary: bool) -> Option<Class>
    ensures value { option_map (λ class. class.0) result ≡ class_of size canary }
    ensures class { IfSome result (λ class. IsTrue (is_class class.0)) }
{
    if size == 0 {
        return Some(Class(0));
    }
    if size > u64::from(LARGEST_CLASS) {
        return None;
    }
    let bytes = if canary { size as u32 + 1 } else { size as u32 };
    least_class(bytes).map(Class)
}

fn least_class(bytes: u32) -> Option<u32>
    ensures { result ≡ least_class bytes }
{
    CHUNK_CLASSES.iter().copied().find(|class| bytes <= *class)
}

/// How many whole pages hold a size in bytes.
pub fn pages_of(size: u64) -> u64
    ensures { result ≡ data_pages size }
{
    size.div_ceil(u64::from(PAGE_SIZE))
}

/// The bytes from the start of one place of a class to the start of the next.
pub fn stride(class: Class) -> u32
    requires { IsTrue (is_class class.0) }
    ensures value { result ≡ stride_of class.0 }
    ensures at_least_16 { 16 ≤ result }
    ensures at_most_2048 { result ≤ largest_class }
{
    if class.0 == 0 { 16 } else { class.0 }
}

/// How many places a page of a class has.
pub fn places(class: Class) -> u32
    requires { IsTrue (is_class class.0) }
    ensures value { result ≡ places_of class.0 }
    ensures at_least_2 { 2 ≤ result }
    ensures at_most_256 { result ≤ 256 }
    ensures on_page { result * stride_of class.0 ≤ page_size }
{
    PAGE_SIZE / stride(class)
}

#[cfg(test)]
mod tests {
    use super::*;

    #[test]
    fn sizes_at_the_edges_of_classes(rt: HostRuntime) {
        for (size, want) in [
            (0, 0),
            (1, 16),
            (16, 16),
            (17, 32),
            (100, 128),
            (2048, 2048),
        ] {
            assert_eq!(rt; class_of(size, false), Some(Class(want)), "at {size}");
        }
        assert_eq!(rt; class_of(2049, false), None);
        for (size, want) in [(0, 0), (15, 16), (16, 32), (2047, 2048)] {
            assert_eq!(rt; class_of(size, true), Some(Class(want)), "at {size}");
        }
        assert_eq!(rt; class_of(2048, true), None);
        assert_eq!(rt; class_of(u64::MAX, true), None);
    }

    #[test]
    fn numbers_of_classes(rt: HostRuntime) {
        for class in [0, 16, 32, 64, 128, 256, 512, 1024, 2048] {
            assert!(rt; is_class(class), "at {class}");
        }
        for other in [1, 15, 48, 2047, 4096] {
            assert!(rt; !is_class(other), "at {other}");
        }
    }

    #[test]
    fn pages_and_places(rt: HostRuntime) {
        assert_eq!(rt; pages_of(1), 1);
        assert_eq!(rt; pages_of(4096), 1);
        assert_eq!(rt; pages_of(4097), 2);
        assert_eq!(rt; pages_of(u64::MAX), 4_503_599_627_370_496);
        assert_eq!(rt; stride(Class(0)), 16);
        assert_eq!(rt; places(Class(0)), 256);
        assert_eq!(rt; places(Class(2048)), 2);
    }
}
