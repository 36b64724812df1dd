// Settings that differ from harmless ones in what a case is about.
use cell::Collision;
use settings::{Face, Settings};
use show::sized;

// On 3 by 2, as all that follow.
pub fn viscous(nu: f64) -> Settings {
    Settings { nu, ..sized(3, 2) }
}

pub fn floored(floor: f64) -> Settings {
    Settings {
        floor,
        ..sized(3, 2)
    }
}

pub fn forced(fx: f64, fy: f64) -> Settings {
    Settings {
        fx,
        fy,
        ..sized(3, 2)
    }
}

pub fn colliding(collision: Collision) -> Settings {
    Settings {
        collision,
        ..sized(3, 2)
    }
}

pub fn faced(x_min: Face, x_max: Face, y_min: Face, y_max: Face) -> Settings {
    Settings {
        x_min,
        x_max,
        y_min,
        y_max,
        ..sized(3, 2)
    }
}

// One face, and three that stand still.
pub fn x_min(face: Face) -> Settings {
    faced(face, Face::NoSlip, Face::NoSlip, Face::NoSlip)
}

pub fn x_max(face: Face) -> Settings {
    faced(Face::NoSlip, face, Face::NoSlip, Face::NoSlip)
}

pub fn y_min(face: Face) -> Settings {
    faced(Face::NoSlip, Face::NoSlip, face, Face::NoSlip)
}

pub fn y_max(face: Face) -> Settings {
    faced(Face::NoSlip, Face::NoSlip, Face::NoSlip, face)
}
