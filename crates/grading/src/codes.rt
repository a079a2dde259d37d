// A row as one number: instance, kind, first and second, a byte each, highest first.
// Numbers, its kind among them, since `togyamiru_rows` and the functions of its header hand C just these.
ghost use Rattle.std.specs.Prelude.{◌<◌, ◌≡◌};
ghost use Rattle.grading.specs.Codes.{packed, instance_in, kind_in, first_in, second_in};

pub fn pack(instance: u32, kind: u32, first: u32, second: u32) -> u32
    requires { (instance < 256) × (kind < 256) × (first < 256) × (second < 256) }
    ensures { result ≡ packed instance kind first second }
{
    ((instance * 256 + kind) * 256 + first) * 256 + second
}

pub fn instance_in(code: u32) -> u32
    ensures { result ≡ instance_in code }
{
    code / 16777216
}

pub fn kind_in(code: u32) -> u32
    ensures { result ≡ kind_in code }
{
    code / 65536 % 256
}

pub fn first_in(code: u32) -> u32
    ensures { result ≡ first_in code }
{
    code / 256 % 256
}

pub fn second_in(code: u32) -> u32
    ensures { result ≡ second_in code }
{
    code % 256
}
